ghost use Rattle.std.specs.Prelude.{◌≡◌, ◌<◌, ◌≤◌, ℕ, true, length, IfOk, IfErr, IfSome};
ghost use Rattle.taps_socket.specs.RaceSockets.{has, pending_sockets};
ghost use Rattle.taps_socket.specs.LiveSockets.{named};
ghost use Rattle.taps_socket.specs.Sides.{carries_stream};
ghost use Rattle.taps_socket.specs.Net.{IsNextMoment, IsSendAnswer, IsReceiveAnswer};
ghost use Rattle.taps_socket.specs.Shows.{EndsInTime};
ghost use Rattle.taps_real.specs.Tables.{net_of};
ghost use Rattle.taps_real.specs.Looks as looks;
ghost use Rattle.taps_real.specs.Looks.{TellsOf, TellsPending};
ghost use Rattle.taps_real.specs.OpenSockets.{is_open};
ghost use Rattle.taps_real.specs.Stops.{stopped_at, StopsInTime};

use crate::RealSockets;
use crate::cause::{cause_of, is_to_accept_again, is_to_try_again};
use crate::clock::GREATEST_TIME;
use crate::held::{Held, Look};
use std::{rt, thread};
use taps_socket::{Cause, How, RecvAnswer, SendAnswer, WaitAnswer};

/// How many rounds a call makes at most.
const MOST_ROUNDS: u64 = 1 << 40;

/// How tries to accept stopped, and when.
#[derive(Clone, Copy, Debug, PartialEq, Eq)]
pub(crate) enum Stop {
    Timed(u64),
    Faulted(u64),
}

// What a wait tells of a pending socket that was looked at.
fn end_of(look: Look, socket: u32) -> Option<How>
    ensures end { result ≡ looks.end_of look socket }
    ensures socket { IfSome result (λ how. TellsOf how socket) }
{
    match look {
        Look::Pending => None,
        Look::Completed => Some(How::Completed(socket)),
        Look::Broke(cause) => Some(How::Broke(socket, cause)),
    }
}

// Each round tries first and reads the clock then, so that a call tries once even when its time has
// passed. Between two rounds the processor is yielded; nothing waits in the kernel.
impl<R: rt::Clock + Drop> RealSockets<R> {
    // One look at the pending socket at a place.
    #[tactic(auto, using(crate::proofs::Named::pending_named))]
    fn look_at(&self, place: usize) -> Option<How>
        requires { place < length (pending_sockets self.now.trace) }
        ensures { IfSome result (λ how. TellsPending how self.now.trace) }
    {
        let socket = self.table.pending_at(place);
        end_of(self.table.held(socket).look(), socket)
    }

    // One look at each pending socket, in the order of their starts, up to the first that is done.
    fn look_at_pending(&self) -> Option<How>
        ensures { IfSome result (λ how. TellsPending how self.now.trace) }
    {
        for place in 0..self.table.pending() {
            let seen = self.look_at(place);
            if seen.is_some() {
                return seen;
            }
        }
        None
    }

    fn told_now(&self, how: How) -> WaitAnswer
        requires { TellsPending how self.now.trace }
        ensures next { IsNextMoment (net_of self.now) result.at }
        ensures ends { (until : ℕ) → EndsInTime result.how until result.at self.now.trace }
    {
        WaitAnswer {
            at: self.time(),
            how,
        }
    }

    /// Looks at the pending sockets until one is done or the time has come. A time of 2^63 or more never
    /// comes: after one round it is a fault.
    pub(crate) fn wait_in_rounds(&self, until: u64) -> WaitAnswer
        ensures next { IsNextMoment (net_of self.now) result.at }
        ensures ends { EndsInTime result.how until result.at self.now.trace }
    {
        for _ in 0..MOST_ROUNDS {
            if let Some(how) = self.look_at_pending() {
                return self.told_now(how);
            }
            let at = self.time();
            if until > GREATEST_TIME {
                break;
            }
            if at >= until {
                return WaitAnswer {
                    at,
                    how: How::Reached,
                };
            }
            thread::yield_now();
        }
        WaitAnswer {
            at: self.time(),
            how: How::Faulted,
        }
    }

    /// Tries to accept until there is a connection or the time has come.
    pub(crate) fn accept_in_rounds(&self, listener: u32, until: u64) -> Result<(Held, u64), Stop>
        requires named { has (named self.now.trace) listener ≡ true }
        ensures came { IfOk result (λ r. IsNextMoment (net_of self.now) r.1) }
        ensures opened { IfOk result (λ r. is_open r.0 ≡ true) }
        ensures stopped { IfErr result (λ stop. IsNextMoment (net_of self.now) (stopped_at stop)) }
        ensures timed { IfErr result (λ stop. StopsInTime until stop) }
    {
        let held = self.table.held(listener);
        for _ in 0..MOST_ROUNDS {
            match held.accept() {
                Ok(accepted) => return Ok((accepted, self.time())),
                Err(error) => {
                    if !is_to_accept_again(&error) {
                        return Err(Stop::Faulted(self.time()));
                    }
                }
            }
            let at = self.time();
            if at >= until {
                return Err(Stop::Timed(at));
            }
            thread::yield_now();
        }
        Err(Stop::Faulted(self.time()))
    }

    /// Tries to send until some bytes are taken or the time has come. A datagram is taken whole.
    pub(crate) fn send_in_rounds(&self, socket: u32, bytes: &[u8], until: u64) -> SendAnswer
        requires named { has (named self.now.trace) socket ≡ true }
        ensures { IsSendAnswer result (carries_stream self.now.trace socket) (length bytes.now) until self.now.told }
    {
        let held = self.table.held(socket);
        let stream = self.table.is_stream(socket);
        for _ in 0..MOST_ROUNDS {
            match held.write(bytes) {
                Ok(0) => {}
                Ok(count) => {
                    if !stream && count < bytes.len() {
                        return SendAnswer::Failed(Cause::Other);
                    }
                    return SendAnswer::Sent {
                        count,
                        at: self.time(),
                    };
                }
                Err(error) => {
                    if !is_to_try_again(&error) {
                        return SendAnswer::Failed(cause_of(&error));
                    }
                }
            }
            let at = self.time();
            if at >= until {
                return SendAnswer::Timed { at };
            }
            thread::yield_now();
        }
        SendAnswer::Failed(Cause::Other)
    }

    /// Tries to receive until bytes come or the time has come. An empty datagram is passed over.
    pub(crate) fn receive_in_rounds(&self, socket: u32, out: &mut [u8], until: u64) -> RecvAnswer
        requires named { has (named self.now.trace) socket ≡ true }
        ensures length { length out.new ≡ length out.old }
        ensures answer { IsReceiveAnswer result (carries_stream self.now.trace socket) (length out.old) until
            self.now.told }
    {
        let held = self.table.held(socket);
        let stream = self.table.is_stream(socket);
        for _ in 0..MOST_ROUNDS {
            match held.read(out) {
                Ok(0) => {
                    if stream {
                        return RecvAnswer::End;
                    }
                }
                Ok(count) => {
                    return RecvAnswer::Got {
                        count,
                        at: self.time(),
                    };
                }
                Err(error) => {
                    if !is_to_try_again(&error) {
                        return RecvAnswer::Failed(cause_of(&error));
                    }
                }
            }
            let at = self.time();
            if at >= until {
                return RecvAnswer::Timed { at };
            }
            thread::yield_now();
        }
        RecvAnswer::Failed(Cause::Other)
    }
}
