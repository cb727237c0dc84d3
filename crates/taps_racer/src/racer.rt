ghost use Rattle.std.specs.Prelude.{◌≡◌, ℕ, List, ◌∷◌, ◌<◌, ◌≤◌, ◌^◌, [], length, if◌then◌else◌, IfOk, Some};
ghost use Rattle.std.specs.List.{All};
ghost use Rattle.taps_stack.specs.declared.target.Target.{Target};
ghost use Rattle.taps_socket.specs.declared.item.Item.{Item};
ghost use Rattle.taps_socket.specs.declared.item.Item.TheVariants.{Began};
ghost use Rattle.taps_socket.specs.Standing.{standing};
ghost use Rattle.taps_socket.specs.LawfulRace.{IsOver};
ghost use Rattle.taps_racer.specs.declared.command.Command.{Command};
ghost use Rattle.taps_racer.specs.declared.command.Command.TheVariants.{Start};
ghost use Rattle.taps_racer.specs.declared.event.Taken.TheVariants.{Used, Ignored};
ghost use Rattle.taps_racer.specs.Kept.{IsShort, fresh};
ghost use Rattle.taps_racer.specs.Commands.{ComesNext, command_of, IsFinish};
ghost use Rattle.taps_racer.specs.Events.{answers, item_of};
ghost use Rattle.taps_racer.specs.Steps.{is_used, heard};
ghost use Rattle.taps_racer.specs.Stands.{StandsFor, IsRun};
ghost use Rattle.taps_racer.specs.CarriedOut.{HasAnswer};

use crate::race::Race;
use crate::{Command, Ended, Phase, Racing, Taken, Told, Unstarted};
use std::alloc::Global;
use std::marker::{Model, PhantomData};
use taps_base::{Gap, NoMemory};
use taps_socket::RaceAnswer;

/// The race of a plan's leaves, in one of its phases (RFC 9623 section 4.3).
///
/// It opens no socket: it says what is to be done next, and is told what came of it. Contracts see
/// what it keeps, and the traces for which it stands.
#[derive(Drop)]
pub struct Racer<S: Phase> {
    race: Race,
    phase: PhantomData<S>,
}

impl<S: Phase> Model for Racer<S> {
    ghost use Rattle.taps_racer.specs.Kept.{Kept};

    ghost Value = { Kept };

    ghost view = { λ r. r.race };

    ghost invariant = { λ r. S.HasPhase r.race };
}

impl Racer<Unstarted> {
    /// A racer for leaves with these gaps, which takes all the memory of its race.
    ///
    /// `timeout` is how long after its beginning the race fails, and `cancel` how long after it the
    /// application gives it up, in milliseconds.
    pub fn new(
        alloc: Global,
        gaps: &[Gap],
        timeout: u64,
        cancel: Option<u64>,
    ) -> Result<Racer<Unstarted>, NoMemory>
        requires few { length gaps.now ≤ 1024 }
        requires short { All IsShort gaps.now }
        requires timeout { timeout ≤ 3600000 }
        requires cancel { (c : ℕ) → cancel ≡ Some c → c ≤ 3600000 }
        ensures { IfOk result (λ r. r ≡ fresh (record { gaps = gaps.now; timeout = timeout; cancel = cancel })) }
    {
        let race = Race::new(alloc, gaps, timeout, cancel)?;
        Ok(Racer {
            race,
            phase: PhantomData,
        })
    }

    /// Begins the race at a moment.
    pub fn begin(self, at: u64) -> Racer<Racing>
        requires { at < 2 ^ 63 }
        ensures rules { result.rules ≡ self.rules }
        ensures run { (first : ℕ) → IsRun result first (Began at ∷ []) }
    {
        let Racer { mut race, phase: _ } = self;
        race.begin(at);
        Racer {
            race,
            phase: PhantomData,
        }
    }
}

impl Racer<Racing> {
    /// The one command that comes next.
    pub fn next(&self) -> Command
        ensures command { result ≡ command_of self.now }
        ensures leaf { (n : ℕ) → result ≡ Start n → n < length self.now.rules.gaps }
        ensures turn { (first : ℕ) (trace : List Item) → IsRun self.now first trace
            → ComesNext self.now.rules (standing trace) result }
        ensures only { (first : ℕ) (trace : List Item) → IsRun self.now first trace
            → (other : Command) → ComesNext self.now.rules (standing trace) other → other ≡ result }
    {
        self.race.command()
    }

    /// Takes an event that answers what `next` gives, and says whether it does.
    pub(crate) fn tell(&mut self, event: Told) -> bool
        ensures used { result ≡ is_used self.old event }
        ensures kept { self.new ≡ heard self.old event }
    {
        self.race.tell(event)
    }

    /// Takes an event that answers what `next` gives, and ignores every other.
    pub fn told(&mut self, event: Told) -> Taken
        ensures answer { (first : ℕ) (trace : List Item) → IsRun self.old first trace → (command : Command)
            → ComesNext self.old.rules (standing trace) command
            → result ≡ (if answers (standing trace) command event then Used else Ignored) }
        ensures ignored { result ≡ Ignored → self.new ≡ self.old }
        ensures stands { result ≡ Used → (first : ℕ) (trace : List Item) (target : ℕ → Target)
            → StandsFor self.old first trace → StandsFor self.new first (item_of first target event ∷ trace) }
        ensures run { result ≡ Used → (first : ℕ) (trace : List Item) (target : ℕ → Target)
            → IsRun self.old first trace → IsRun self.new first (item_of first target event ∷ trace) }
        ensures rules { self.new.rules ≡ self.old.rules }
    {
        if self.tell(event) {
            Taken::Used
        } else {
            Taken::Ignored
        }
    }

    /// Ends the race, whose answer is that of `next`.
    pub fn finish(self) -> Racer<Ended>
        requires { IsFinish (command_of self) }
        ensures { result ≡ self }
    {
        let Racer { race, phase: _ } = self;
        Racer {
            race,
            phase: PhantomData,
        }
    }
}

impl Racer<Ended> {
    /// The race's answer.
    pub fn answer(&self) -> RaceAnswer
        ensures answer { HasAnswer self.now result }
        ensures over { (first : ℕ) (trace : List Item) → IsRun self.now first trace
            → IsOver self.now.rules (standing trace) result }
    {
        match self.race.over() {
            Some(answer) => answer,
            None => unreachable!(),
        }
    }
}
