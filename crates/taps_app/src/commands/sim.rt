ghost use Rattle.std.specs.Prelude.{Ok, IfOk};
ghost use Rattle.taps_command.specs.Checks.{second_value, HasFirst, HasSecond};
ghost use Rattle.taps_command.specs.Meanings.{Returns};
ghost use Rattle.taps_app.specs.Sim.{scripted, AreAtFirst};

use std::alloc::Global;
use taps_base::{List, NoMemory};
use taps_command::{
    Command, FileRules, Layers, MOST_BYTES, Printed, Shelf, TwoFiles, Unready, check_first, derive,
    vouch_untouched,
};
use taps_endpoint::Address;
use taps_preconnection::Preconnection;
use taps_script::{ScriptError, ScriptSockets};
use taps_session::simulate;
use taps_socket::Sockets;
use taps_text::Refusal;

/// `sim FILE SCRIPT` runs the file's session on scripted sockets, and writes its log.
pub struct Sim;

impl FileRules for Sim {
    ghost use Rattle.taps_app.specs.Sim.{sim_rules};

    ghost rules = { sim_rules };

    fn addresses(alloc: Global, pre: &Preconnection) -> Result<List<Address>, Unready> {
        derive(alloc, pre)
    }
}

impl<L: Layers> Command<L> for Sim {
    ghost use Rattle.taps_command.specs.Checks.{HasBoth};
    ghost use Rattle.taps_app.specs.Sim.{sim, AreAtFirst};

    type Value = TwoFiles<ScriptSockets>;

    ghost meaning = { sim L.layers };

    ghost seen = { λ value. value };

    ghost keeps = { HasBoth L.layers AreAtFirst };

    fn start(_alloc: Global) -> TwoFiles<ScriptSockets> {
        TwoFiles::Nothing
    }

    fn count() -> usize {
        2
    }

    fn limit(at: usize) -> u64 {
        match at {
            0 => MOST_BYTES,
            _ => MOST_BYTES,
        }
    }

    fn check(
        alloc: Global,
        shelf: &Shelf<'_>,
        at: usize,
        value: TwoFiles<ScriptSockets>,
        bytes: &[u8],
    ) -> Result<TwoFiles<ScriptSockets>, Unready> {
        match at {
            0 => check_first::<Sim, L, ScriptSockets>(alloc, shelf, bytes),
            _ => check_script::<L>(alloc, value, bytes),
        }
    }

    fn print<N: Sockets>(
        alloc: Global,
        shelf: &Shelf<'_>,
        value: TwoFiles<ScriptSockets>,
        net: &mut N,
    ) -> Result<Printed, NoMemory> {
        vouch_untouched::<N>(net);
        match value {
            TwoFiles::Both(ready, sockets) => simulate::<L>(alloc, shelf, &ready, sockets),
            TwoFiles::Nothing | TwoFiles::File(_) => unreachable!(),
        }
    }
}

/// SCRIPT, after FILE.
pub fn check_script<L: Layers>(
    alloc: Global,
    value: TwoFiles<ScriptSockets>,
    bytes: &[u8],
) -> Result<TwoFiles<ScriptSockets>, Unready>
    requires { HasFirst L.layers value }
    ensures returns { Returns (λ both. both) (second_value value (scripted bytes.now)) result }
    ensures kept { IfOk result (λ both. HasSecond L.layers AreAtFirst both) }
{
    match value {
        TwoFiles::File(ready) => match read_script(alloc, bytes) {
            Ok(sockets) => Ok(TwoFiles::Both(ready, sockets)),
            Err(Unready::Refused(why)) => Err(Unready::Refused(why)),
            Err(Unready::NoMemory) => Err(Unready::NoMemory),
        },
        TwoFiles::Nothing | TwoFiles::Both(_, _) => unreachable!(),
    }
}

// The sockets that follow the script.
#[tactic(auto, unfolding(crate::specs::Sim::scripted))]
fn read_script(alloc: Global, bytes: &[u8]) -> Result<ScriptSockets, Unready>
    ensures returns { Returns (λ sockets. sockets) (scripted bytes.now) result }
    ensures first { IfOk result (λ sockets. AreAtFirst sockets) }
{
    match ScriptSockets::read(alloc, bytes) {
        Ok(sockets) => Ok(sockets),
        Err(ScriptError::Line(number)) => Err(Unready::Refused(Refusal::Script(number))),
        Err(ScriptError::NoMemory) => Err(Unready::NoMemory),
    }
}
