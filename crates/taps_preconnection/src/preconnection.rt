ghost use Rattle.std.specs.Prelude.{◌≡◌};

use crate::{Exchange, MessageSpec, Path, RacePlan};
use taps_base::{List, Name};
use taps_endpoint::{Hosts, Local, Remote};
use taps_property::{ConnectionProps, Role, Selection};

/// Endpoints and properties, from which candidates are gathered, and what a run does with them (RFC
/// 9622 section 6).
#[derive(Drop)]
pub struct Preconnection {
    /// What is asked of stacks and paths by Initiate.
    pub initiating: Selection,
    /// What is asked of stacks and paths by Listen.
    pub listening: Selection,
    /// What is asked of stacks and paths by Rendezvous.
    pub meeting: Selection,
    /// Whether messages may be sent again where they say nothing.
    pub replayable: bool,
    pub connection: ConnectionProps,
    /// At least one.
    pub paths: List<Path>,
    pub locals: List<Local>,
    /// Where the other end may be reached.
    pub remotes: List<Remote>,
    pub hosts: Hosts,
    pub race: RacePlan,
    /// The names of the framers, the nearest to the transport first.
    pub framers: List<Name>,
    pub messages: List<MessageSpec>,
    pub exchange: Exchange,
}

impl Preconnection {
    ghost use Rattle.taps_preconnection.specs.Preconnections.{selection_for};

    /// What is asked in this role.
    pub fn selection(&self, role: Role) -> &Selection
        ensures { result.now ≡ selection_for self.now role }
    {
        match role {
            Role::Initiate => &self.initiating,
            Role::Listen => &self.listening,
            Role::Rendezvous => &self.meeting,
        }
    }
}
