// Sends bytes, whole, until a time.
ghost use Rattle.std.specs.Prelude.{◌≡◌, ◌≤◌, ◌<◌, ◌^◌, ◌+◌, true, false, length};
ghost use Rattle.taps_socket.specs.Sides.{may_send, carries_stream};
ghost use Rattle.taps_connection.specs.Adds.{Adds};
ghost use Rattle.taps_connection.specs.Pushes.{HasPushed, Took, items_at, timed_at};

use taps_socket::{Cause, SendAnswer, Sockets};

// How sending ends: all was taken, or a call was timed or failed.
#[derive(Clone, Copy, Debug)]
pub enum Pause {
    Whole,
    Timed(u64),
    Failed(Cause),
}

// How many bytes were taken, the greatest time so far, and how sending ended.
#[derive(Clone, Copy, Debug)]
pub struct Progress {
    pub taken: usize,
    pub moment: u64,
    pub pause: Pause,
}

// Sends the bytes behind those that were taken.
pub fn push_rest<N: Sockets>(
    net: &mut N,
    socket: u32,
    bytes: &[u8],
    from: usize,
    at: u64,
    until: u64,
) -> Progress
    requires may { may_send (N.net net.old).trace socket ≡ true }
    requires within { from ≤ length bytes.now }
    requires room { length bytes.now ≤ ((N.net net.old).traffic socket).room + from }
    requires datagram { carries_stream (N.net net.old).trace socket ≡ false → (from ≡ 0) × length bytes.now ≤ 65507 }
    requires spare { 1 ≤ (N.net net.old).spare }
    requires until { until < 2 ^ 63 }
    ensures pushed { HasPushed N.Becomes net.old net.new socket until bytes.now from at
        result.taken result.moment result.pause }
    ensures took { Took (carries_stream (N.net net.old).trace socket)
        ((N.net net.old).traffic socket) ((N.net net.new).traffic socket) bytes.now from result.taken }
    ensures adds { Adds socket (items_at socket result.pause) (timed_at socket until result.pause) (N.net net.old)
        (N.net net.new) }
{
    let mut taken = from;
    let mut moment = at;
    'sending: while taken < bytes.len() {
        match net.send(socket, &bytes[taken..], until) {
            SendAnswer::Sent { count, at } => {
                taken += count;
                moment = moment.max(at);
            }
            SendAnswer::Timed { at } => {
                return Progress {
                    taken,
                    moment: moment.max(at),
                    pause: Pause::Timed(at),
                };
            }
            SendAnswer::Failed(cause) => {
                return Progress {
                    taken,
                    moment,
                    pause: Pause::Failed(cause),
                };
            }
        }
    }
    Progress {
        taken,
        moment,
        pause: Pause::Whole,
    }
}
