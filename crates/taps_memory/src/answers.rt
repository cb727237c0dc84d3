// What sockets in memory answer.
ghost use Rattle.std.specs.Prelude.{◌≡◌, ◌<◌, ◌≤◌, ◌^◌, ◌||◌, ◌==◌, length, true, false, Some, IfOk, IfSome, nat_lt, if◌then◌else◌};
ghost use Rattle.std.specs.List.{list_any};
ghost use Rattle.taps_socket.specs.Sides.{carries_stream, is_connected, listeners};
ghost use Rattle.taps_socket.specs.Net.{IsNextMoment, IsGiven, IsSendAnswer};
ghost use Rattle.taps_socket.specs.Shows.{EndsInTime};
ghost use Rattle.taps_memory.specs.Pairs.{first_of, other_end, under_way};
ghost use Rattle.taps_memory.specs.Links.{pair_of, link_has, has_link};
ghost use Rattle.taps_memory.specs.Listeners.{listener_on};
ghost use Rattle.taps_memory.specs.MemoryAnswers as answers;
ghost use Rattle.taps_memory.specs.MemoryAnswers.{next_number};
ghost use Rattle.taps_memory.specs.Memory.{net_of, state_of};
ghost use Rattle.taps_memory.specs.Kept.{AreSound, some_waits};
ghost use Rattle.taps_memory.specs.Begun.{start_by, listen_by, CanStart, CanListen, TakesFree};

use crate::link::Link;
use crate::links::{link_of, place_waiting};
use crate::listening::listener_among;
use crate::memory_net::MemoryNet;
use taps_socket::{Cause, How, SendAnswer, Target, WaitAnswer};
use taps_stack::is_stream;

/// How many sockets may listen, one after the other.
const MOST_LISTENERS: u32 = 1048576;

impl MemoryNet {
    /// A connected socket is an end of a connection, and all sockets carry streams.
    pub(crate) fn vouch_end(&self, socket: u32)
        requires { is_connected self.now.trace socket ≡ true }
        ensures found { has_link self.now.links socket ≡ true }
        ensures sound { AreSound self.now.links }
        ensures stream { carries_stream self.now.trace socket ≡ true }
    {
        let _ = &self.links;
    }

    /// The number of the next socket.
    pub(crate) fn next_number(&self) -> u32
        ensures number { result ≡ next_number self.now.trace }
        ensures given { IsGiven result (net_of self.now) }
        ensures absent { has_link self.now.links result ≡ false }
        ensures sound { AreSound self.now.links }
    {
        self.given
    }

    // The socket that listens on a target, if one does.
    fn listener(&self, target: &Target) -> Option<u32>
        ensures { result ≡ listener_on self.now.trace target.now }
    {
        listener_among(&self.listening, target)
    }

    // Whether all connections were used.
    fn is_full(&self) -> bool
        ensures full { result ≡ (length self.now.links == self.now.setting.pairs) }
        ensures within { length self.now.links ≤ self.now.setting.pairs }
    {
        self.links.len() == self.most
    }

    // The listening socket and the number of a socket that is started to a target.
    pub(crate) fn begin(&self, target: &Target) -> Result<(u32, u32), Cause>
        ensures answer { answers.start_answer self.now.setting (state_of self.now) target.now ≡
            start_by result self.now.told }
        ensures begun { IfOk result (λ r. CanStart self.now target.now r.0 r.1) }
    {
        if !is_stream(target.stack) {
            return Err(Cause::Refused);
        }
        let Some(listener) = self.listener(target) else {
            return Err(Cause::Refused);
        };
        if self.is_full() {
            return Err(Cause::Memory);
        }
        Ok((listener, self.next_number()))
    }

    // Whether so many sockets listened that no more may.
    fn is_over_listened(&self) -> bool
        ensures { result ≡ (if nat_lt (length (listeners self.now.trace)) answers.most_listeners then false else true) }
    {
        if self.listened < MOST_LISTENERS {
            false
        } else {
            true
        }
    }

    // The number of a socket that listens on a target.
    pub(crate) fn bind(&self, target: &Target) -> Result<u32, Cause>
        ensures answer { answers.listen_answer (state_of self.now) target.now ≡ listen_by result self.now.told }
        ensures bound { IfOk result (λ s. CanListen self.now s) }
    {
        if let Some(_) = self.listener(target) {
            return Err(Cause::Other);
        }
        if self.is_over_listened() {
            return Err(Cause::Other);
        }
        Ok(self.next_number())
    }

    // Whether the next wait or accept faults.
    pub(crate) fn is_to_fault(&self) -> bool
        ensures { result ≡ answers.is_to_fault self.now.setting.plan self.now.turns }
    {
        is_among(&self.plan, self.turns)
    }

    // Whether a connection waits to be accepted from a listening socket.
    pub(crate) fn is_waited_for(&self, listener: u32) -> bool
        ensures { result ≡ some_waits listener self.now.links }
    {
        match place_waiting(&self.links, listener) {
            Some(place) => {
                let _ = place;
                true
            }
            None => false,
        }
    }

    fn choose_wait(&self, until: u64) -> WaitAnswer
        ensures { result ≡ answers.wait_answer self.now.setting (state_of self.now) until }
    {
        let at = self.told;
        if self.is_to_fault() {
            let how = How::Faulted;
            return WaitAnswer { at, how };
        }
        match self.pending.as_slice() {
            [socket, ..] => WaitAnswer {
                at,
                how: How::Completed(*socket),
            },
            [] => idle_wait(at, until),
        }
    }

    /// What a wait comes to.
    pub(crate) fn wait_answer(&self, until: u64) -> WaitAnswer
        ensures answer { result ≡ answers.wait_answer self.now.setting (state_of self.now) until }
        ensures next { IsNextMoment (net_of self.now) result.at }
        ensures ends { EndsInTime result.how until result.at self.now.trace }
    {
        let _ = self.time();
        self.choose_wait(until)
    }

    /// What a send of so many bytes comes to.
    pub(crate) fn send_answer(&self, socket: u32, count: usize, until: u64) -> SendAnswer
        requires found { has_link self.now.links socket ≡ true }
        requires some { 1 ≤ count }
        requires until { until < 2 ^ 63 }
        ensures answer { result ≡ answers.send_answer (state_of self.now) socket count until }
        ensures may { IsSendAnswer result true count until self.now.told }
        ensures free { IfSome (first_of (link_has socket) self.now.links) (λ l. TakesFree result (pair_of l) socket) }
    {
        let at = self.time();
        match link_of(&self.links, socket) {
            Some(link) => send_by(link, socket, count, at, until),
            None => unreachable!(),
        }
    }

    /// How many bytes are under way to a socket.
    pub(crate) fn held(&self, socket: u32) -> usize
        requires { has_link self.now.links socket ≡ true }
        ensures { IfSome (first_of (link_has socket) self.now.links)
            (λ l. result ≡ length (under_way (other_end (pair_of l) socket))) }
    {
        match link_of(&self.links, socket) {
            Some(link) => link.held(socket),
            None => unreachable!(),
        }
    }

    /// Whether no more bytes come to a socket.
    pub(crate) fn is_over(&self, socket: u32) -> bool
        requires { has_link self.now.links socket ≡ true }
        ensures { IfSome (first_of (link_has socket) self.now.links)
            (λ l. result ≡ ((other_end (pair_of l) socket).shut || (other_end (pair_of l) socket).closed)) }
    {
        match link_of(&self.links, socket) {
            Some(link) => link.is_other_shut(socket) || link.is_other_closed(socket),
            None => unreachable!(),
        }
    }
}

fn is_among(plan: &[u64], turns: u64) -> bool
    ensures { result ≡ list_any (λ k. k == turns) plan.now }
{
    for k in plan {
        if *k == turns {
            return true;
        }
    }
    false
}

// A wait that finds nothing to tell.
fn idle_wait(at: u64, until: u64) -> WaitAnswer
    ensures { result ≡ answers.wait_idle at until }
{
    if until < 1 << 63 {
        WaitAnswer {
            at: at.max(until),
            how: How::Reached,
        }
    } else {
        WaitAnswer {
            at,
            how: How::Faulted,
        }
    }
}

// A send of so many bytes on a socket of a connection.
fn send_by(link: &Link, socket: u32, count: usize, at: u64, until: u64) -> SendAnswer
    ensures { result ≡ answers.send_in (Some (pair_of link.now)) socket count at until }
{
    if link.is_other_closed(socket) {
        return SendAnswer::Failed(Cause::Reset);
    }
    let free = link.free(socket);
    if free == 0 {
        return SendAnswer::Timed { at: at.max(until) };
    }
    SendAnswer::Sent {
        count: count.min(free),
        at,
    }
}
