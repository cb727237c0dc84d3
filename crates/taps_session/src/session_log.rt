ghost use Rattle.std.specs.Prelude.{◌≡◌, [], IfOk};
ghost use Rattle.taps_command.specs.Meanings.{HasText, IsPrinted};
ghost use Rattle.taps_command.specs.Nets.{HasRun};
ghost use Rattle.taps_command.specs.Places.{IsOnShelf};
ghost use Rattle.taps_command.specs.Shelves.{layers_on};
ghost use Rattle.taps_script.specs.ScriptNet.{at_first};
ghost use Rattle.taps_candidate.specs.Plan.{listed};
ghost use Rattle.taps_session.specs.FileSessions as sessions;
ghost use Rattle.taps_session.specs.FileSessions.{text_of, IsPlanFor};
ghost use Rattle.taps_session.specs.Roles.{HoldsAs, IsLoggedAs, LeavesAs};
ghost use Rattle.taps_session.specs.ScriptedSessions.{IsSimulatedSession};
ghost use Rattle.taps_session.specs.SessionLogs.{log_of, status_after};

use crate::initiating::hold_initiated;
use crate::looping::hold_both;
use crate::plan::{plan_for, text};
use crate::serving::serve;
use crate::session::Session;
use crate::status::status_after;
use std::alloc::Global;
use taps_base::NoMemory;
use taps_candidate::Plan;
use taps_command::{Layers, Printed, Ready, Shelf, vouch_untouched};
use taps_exchange::vouch_unique;
use taps_framer::Framer;
use taps_preconnection::RunRole;
use taps_script::{ScriptSockets, vouch_for_script};
use taps_socket::Sockets;
use taps_text::{Log, put_log};

/// Runs the session of a role over its plan, and gives its log. The log is made after all closes.
pub fn session_text<L: Layers, N: Sockets>(
    alloc: Global,
    shelf: &Shelf<'_>,
    ready: &Ready,
    role: RunRole,
    net: &mut N,
) -> Result<Printed, NoMemory>
    requires shelf { layers_on ⟦<dyn Framer as Framer>⟧ shelf.now ≡ L.layers }
    requires on_shelf { IsOnShelf L.layers ready.now.places }
    requires fresh { (N.net net.old).trace ≡ [] }
    ensures ran { HasRun N.Becomes net.old net.new (N.net net.old) (N.net net.new)
        (IsPrinted (IsLoggedAs role L.layers ready.now) (LeavesAs role L.layers ready.now) result) }
    ensures has_text { IfOk result (λ printed. HasText printed.status) }
{
    vouch_untouched::<N>(net);
    match plan_for(alloc, ready, role) {
        Ok(plan) => run_and_log::<L, N>(alloc, shelf, ready, role, &plan, net),
        Err(none) => Err(none),
    }
}

// The same for a plan that is made.
#[tactic(auto, using(crate::proofs::Plans::as_listed))]
fn run_and_log<L: Layers, N: Sockets>(
    alloc: Global,
    shelf: &Shelf<'_>,
    ready: &Ready,
    role: RunRole,
    plan: &Plan,
    net: &mut N,
) -> Result<Printed, NoMemory>
    requires shelf { layers_on ⟦<dyn Framer as Framer>⟧ shelf.now ≡ L.layers }
    requires on_shelf { IsOnShelf L.layers ready.now.places }
    requires plan { IsPlanFor ready.now (sessions.plan_for role ready.now.pre ready.now.addresses) plan.now }
    requires fresh { (N.net net.old).trace ≡ [] }
    ensures ran { HasRun N.Becomes net.old net.new (N.net net.old) (N.net net.new)
        (IsPrinted (IsLoggedAs role L.layers ready.now) (LeavesAs role L.layers ready.now) result) }
    ensures has_text { IfOk result (λ printed. HasText printed.status) }
{
    match run_as::<L, N>(alloc, shelf, ready, role, plan, net) {
        Ok(session) => match log(alloc, ready, plan, &session) {
            Ok(printed) => Ok(printed),
            Err(none) => Err(none),
        },
        Err(none) => Err(none),
    }
}

// Runs the session of a role.
fn run_as<L: Layers, N: Sockets>(
    alloc: Global,
    shelf: &Shelf<'_>,
    ready: &Ready,
    role: RunRole,
    plan: &Plan,
    net: &mut N,
) -> Result<Session, NoMemory>
    requires shelf { layers_on ⟦<dyn Framer as Framer>⟧ shelf.now ≡ L.layers }
    requires on_shelf { IsOnShelf L.layers ready.now.places }
    requires plan { IsPlanFor ready.now (sessions.plan_for role ready.now.pre ready.now.addresses) plan.now }
    requires fresh { (N.net net.old).trace ≡ [] }
    ensures ran { HasRun N.Becomes net.old net.new (N.net net.old) (N.net net.new)
        (HoldsAs role L.layers ready.now result) }
{
    match role {
        RunRole::Initiate => hold_initiated::<L, N>(alloc, shelf, ready, plan, net),
        RunRole::Listen => serve::<L, N>(alloc, shelf, ready, plan, net),
        RunRole::Loop => hold_both::<L, N>(alloc, shelf, ready, plan, net),
    }
}

/// The log of a session that ran, with its status.
#[tactic(auto, unfolding(crate::specs::SessionLogs::log_of))]
pub fn log(
    alloc: Global,
    ready: &Ready,
    plan: &Plan,
    session: &Session,
) -> Result<Printed, NoMemory>
    requires plan { IsPlanFor ready.now (listed plan.now) plan.now }
    ensures log { IfOk result (λ printed. printed.text.items ≡
        log_of (text_of ready.now.pre (listed plan.now)) ready.now.pre.exchange.part session.now) }
    ensures status { IfOk result (λ printed.
        printed.status ≡ status_after session.now.answer session.now.outcome) }
    ensures has_text { IfOk result (λ printed. HasText printed.status) }
{
    let mut text = text(alloc, ready, plan)?;
    let log = Log {
        before: session.before(),
        answer: session.answer(),
        after: session.after(),
        members: session.members(),
        part: ready.pre.exchange.part,
        outcome: session.outcome(),
    };
    put_log(&mut text, &log)?;
    Ok(Printed {
        text,
        status: status_after(session.answer(), session.outcome()),
    })
}

/// Runs the session on scripted sockets.
pub fn simulate<L: Layers>(
    alloc: Global,
    shelf: &Shelf<'_>,
    ready: &Ready,
    sockets: ScriptSockets,
) -> Result<Printed, NoMemory>
    requires shelf { layers_on ⟦<dyn Framer as Framer>⟧ shelf.now ≡ L.layers }
    requires on_shelf { IsOnShelf L.layers ready.now.places }
    requires first { sockets ≡ at_first sockets.lines }
    ensures simulated { IfOk result (λ printed.
        IsSimulatedSession L.layers ready.now sockets.lines printed.text.items printed.status) }
    ensures has_text { IfOk result (λ printed. HasText printed.status) }
{
    let mut sockets = sockets;
    vouch_for_script(&sockets);
    vouch_unique();
    match session_text::<L, ScriptSockets>(alloc, shelf, ready, RunRole::Initiate, &mut sockets) {
        Ok(printed) => Ok(printed),
        Err(none) => Err(none),
    }
}
