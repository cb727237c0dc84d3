ghost use Rattle.std.specs.Prelude.{◌≡◌, ◌≤◌, ◌==◌, not, filter, option_map, vec_len, vec_capacity};
ghost use Rattle.taps_memory.specs.Targets.{same_stack, same_target};
ghost use Rattle.taps_memory.specs.Pairs.{first_of};
ghost use Rattle.taps_memory.specs.Listeners.{listener_among};

use taps_socket::Target;
use taps_stack::Stack;

/// A socket that listens on a target.
#[derive(Clone, Copy, Debug, PartialEq, Eq)]
pub(crate) struct Listening {
    pub socket: u32,
    pub target: Target,
}

fn is_same_stack(one: Stack, other: Stack) -> bool
    ensures { result ≡ same_stack one other }
{
    match (one, other) {
        (Stack::Tcp, Stack::Tcp) | (Stack::Unix, Stack::Unix) | (Stack::Udp, Stack::Udp) => true,
        (Stack::Tcp | Stack::Unix | Stack::Udp, _) => false,
    }
}

fn is_same(one: &Target, other: &Target) -> bool
    ensures { result ≡ same_target one.now other.now }
{
    is_same_stack(one.stack, other.stack) && one.address == other.address
}

/// The socket that listens on a target, if one does.
pub(crate) fn listener_among(listening: &[Listening], target: &Target) -> Option<u32>
    ensures { result ≡ listener_among listening.now target.now }
{
    for listener in listening {
        if is_same(target, &listener.target) {
            return Some(listener.socket);
        }
    }
    None
}

/// A closed socket listens no more.
pub(crate) fn forget_listener(listening: &mut Vec<Listening>, socket: u32)
    ensures rest { listening.new.items ≡ filter (λ l. not (socket == l.socket)) listening.old.items }
    ensures fewer { vec_len listening.new ≤ vec_len listening.old }
    ensures room { vec_capacity listening.new ≡ vec_capacity listening.old }
{
    listening.retain(move |l| socket != l.socket);
}
