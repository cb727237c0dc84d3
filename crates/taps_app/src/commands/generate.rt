ghost use Rattle.std.specs.Prelude.{◌≡◌, ◌≤◌, IfOk, length, option_map, reverse};
ghost use Rattle.taps_command.specs.Checks.{HasSecond};
ghost use Rattle.taps_command.specs.Meanings.{HasText, Returns};
ghost use Rattle.taps_command.specs.Places.{IsOnShelf};
ghost use Rattle.taps_command.specs.Runs.{names_of};
ghost use Rattle.taps_command.specs.Shelves.{layers_on};
ghost use Rattle.taps_script.specs.ScriptNet.{at_first};
ghost use Rattle.taps_text.specs.Generated.{generated_file, generated_script};
ghost use Rattle.taps_text.specs.Summary.{summary_lines};
ghost use Rattle.taps_app.specs.Gen as specs;
ghost use Rattle.taps_app.specs.Gen.{generated, number_asked, IsSummedUpSession};
ghost use Rattle.taps_session.specs.SessionLogs.{status_after};
ghost use Rattle.taps_app.specs.Sim.{AreAtFirst};

use crate::commands::sim::{Sim, check_script};
use std::alloc::Global;
use taps_base::NoMemory;
use taps_candidate::Plan;
use taps_command::{Layers, Maker, Printed, Ready, Shelf, TwoFiles, Unready, check_first};
use taps_exchange::vouch_unique;
use taps_framer::Framer;
use taps_script::{ScriptSockets, number, vouch_for_script};
use taps_session::{Session, hold_initiated, initiate, status_after};
use taps_text::{MemberLog, Summary, put_generated_file, put_generated_script, put_summary};

/// `gen NUMBER` makes a file and a script of the number, runs their session on scripted sockets, and
/// writes its summary.
#[derive(Clone, Copy)]
pub struct Gen {
    pub number: u32,
}

/// The command of the arguments, if they are `gen` and a number.
pub fn gen_of(word: &str, names: &[String]) -> Option<Gen>
    ensures { option_map (λ gen. gen.number) result ≡ number_asked word.now (names_of names.now) }
{
    match names {
        [text] if word == "gen" => match number(text.as_bytes()) {
            Some(number) => Some(Gen { number }),
            None => None,
        },
        _ => None,
    }
}

impl<L: Layers> Maker<L> for Gen {
    ghost use Rattle.taps_app.specs.Gen.{gen};

    ghost making = { λ g. gen L.layers g.number };

    fn name(&self) -> &'static str {
        "gen"
    }

    fn make(&self, alloc: Global, shelf: &Shelf<'_>) -> Result<Printed, Unready> {
        match generate::<L>(alloc, shelf, self.number) {
            Ok(TwoFiles::Both(ready, sockets)) => {
                match sum_up::<L>(alloc, shelf, self.number, &ready, sockets) {
                    Ok(printed) => Ok(printed),
                    Err(NoMemory) => Err(Unready::NoMemory),
                }
            }
            Ok(TwoFiles::Nothing | TwoFiles::File(_)) => unreachable!(),
            Err(Unready::Refused(why)) => Err(Unready::Refused(why)),
            Err(Unready::NoMemory) => Err(Unready::NoMemory),
        }
    }
}

// The file and the script, with their checks.
#[tactic(auto, unfolding(crate::specs::Gen::generated))]
fn generate<L: Layers>(
    alloc: Global,
    shelf: &Shelf<'_>,
    number: u32,
) -> Result<TwoFiles<ScriptSockets>, Unready>
    requires { layers_on ⟦<dyn Framer as Framer>⟧ shelf.now ≡ L.layers }
    ensures returns { Returns (λ both. both) (generated L.layers number) result }
    ensures kept { IfOk result (λ both. HasSecond L.layers AreAtFirst both) }
{
    match texts(alloc, number) {
        Ok((file, script)) => match check_first::<Sim, L, ScriptSockets>(alloc, shelf, &file) {
            Ok(first) => match check_script::<L>(alloc, first, &script) {
                Ok(both) => Ok(both),
                Err(Unready::Refused(why)) => Err(Unready::Refused(why)),
                Err(Unready::NoMemory) => Err(Unready::NoMemory),
            },
            Err(Unready::Refused(why)) => Err(Unready::Refused(why)),
            Err(Unready::NoMemory) => Err(Unready::NoMemory),
        },
        Err(NoMemory) => Err(Unready::NoMemory),
    }
}

fn texts(alloc: Global, number: u32) -> Result<(Vec<u8>, Vec<u8>), NoMemory>
    ensures file { IfOk result (λ texts. texts.0.items ≡ generated_file number) }
    ensures script { IfOk result (λ texts. texts.1.items ≡ generated_script number) }
{
    let mut file = Vec::new(alloc);
    put_generated_file(&mut file, number)?;
    let mut script = Vec::new(alloc);
    put_generated_script(&mut script, number)?;
    Ok((file, script))
}

// Runs the session on scripted sockets, and gives its summary.
fn sum_up<L: Layers>(
    alloc: Global,
    shelf: &Shelf<'_>,
    number: u32,
    ready: &Ready,
    sockets: ScriptSockets,
) -> Result<Printed, NoMemory>
    requires shelf { layers_on ⟦<dyn Framer as Framer>⟧ shelf.now ≡ L.layers }
    requires on_shelf { IsOnShelf L.layers ready.now.places }
    requires first { sockets ≡ at_first sockets.lines }
    ensures summed_up { IfOk result (λ printed.
        IsSummedUpSession L.layers number ready.now sockets.lines printed.text.items printed.status) }
    ensures has_text { IfOk result (λ printed. HasText printed.status) }
{
    let mut sockets = sockets;
    vouch_for_script(&sockets);
    vouch_unique();
    let plan = initiate(alloc, ready)?;
    match hold_initiated::<L, ScriptSockets>(alloc, shelf, ready, &plan, &mut sockets) {
        Ok(session) => match summary(alloc, number, &plan, &session) {
            Ok(printed) => Ok(printed),
            Err(none) => Err(none),
        },
        Err(none) => Err(none),
    }
}

// The summary of a session that ran.
fn summary(alloc: Global, number: u32, plan: &Plan, session: &Session) -> Result<Printed, NoMemory>
    ensures text { IfOk result (λ printed. printed.text.items ≡
        summary_lines number (length plan.now.leaves.items) (reverse session.now.before) session.now.answer
        (specs.received session.now.members) session.now.outcome) }
    ensures status { IfOk result (λ printed.
        printed.status ≡ status_after session.now.answer session.now.outcome) }
    ensures has_text { IfOk result (λ printed. HasText printed.status) }
{
    let summary = Summary {
        number,
        leaves: plan.leaves.len() as u64,
        race: session.before(),
        answer: session.answer(),
        received: received(session.members()),
        outcome: session.outcome(),
    };
    let mut text = Vec::new(alloc);
    put_summary(&mut text, &summary)?;
    Ok(Printed {
        text,
        status: status_after(session.answer(), session.outcome()),
    })
}

// How many messages the first member heard.
fn received(members: &[MemberLog]) -> u64
    ensures { result ≡ specs.received members.now }
{
    match members {
        [first, ..] => first.heard.len() as u64,
        [] => 0,
    }
}
