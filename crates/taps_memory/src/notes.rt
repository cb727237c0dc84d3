// What is noted of each call on sockets in memory.
ghost use Rattle.std.specs.Prelude.{◌≡◌, ◌<◌, ◌≤◌, ◌+◌, ◌++◌, ◌∷◌, [], ◌==◌, ◌^◌, max, ℕ, not, filter, length, take, drop, min, true, IfSome, OnOk, OnErr, vec_len, vec_capacity};
ghost use Rattle.taps_stack.specs.StackTable as stacks;
ghost use Rattle.taps_socket.specs.declared.item.Item.TheVariants as item;
ghost use Rattle.taps_socket.specs.declared.timed_call.TimedKind.TheVariants as kind;
ghost use Rattle.taps_socket.specs.declared.answers.AcceptAnswer.TheVariants.{Timed};
ghost use Rattle.taps_socket.specs.RaceSockets.{has};
ghost use Rattle.taps_socket.specs.LiveSockets.{named};
ghost use Rattle.taps_socket.specs.Sides.{listeners};
ghost use Rattle.taps_socket.specs.Net.{IsNextMoment};
ghost use Rattle.taps_socket.specs.Shows.{EndsInTime};
ghost use Rattle.taps_memory.specs.Pairs.{first_of, free_at, own_end, other_end, under_way};
ghost use Rattle.std.specs.List.{All};
ghost use Rattle.taps_memory.specs.Links.{pair_of, link_has, has_link, own_side, unused_link, started_link};
ghost use Rattle.taps_memory.specs.MemoryAnswers.{most_listeners, next_number};
ghost use Rattle.taps_memory.specs.MemorySteps.{listener_for};
ghost use Rattle.taps_memory.specs.Memory.{net_of, after_item, after_turn, after_timed, after_wait, after_fault, after_start, after_accept, after_close, after_shut, after_sent, after_read, after_room, count_after};
ghost use Rattle.taps_memory.specs.Kept.{IsQuiet, some_waits, without_told};

use crate::link::Link;
use crate::links::{accept_first, close_in, read_in, room_in, shut_in, write_in};
use crate::listening::{Listening, forget_listener};
use crate::memory_net::MemoryNet;
use crate::room::{add, add_copy};
use taps_base::NoMemory;
use taps_socket::{AcceptAnswer, Cause, How, Item, Target, TimedCall, TimedKind, WaitAnswer};

impl MemoryNet {
    /// The time of the clock, which is the last reported one.
    pub(crate) fn time(&self) -> u64
        ensures told { result ≡ self.now.told }
        ensures next { IsNextMoment (net_of self.now) result }
    {
        self.told
    }

    /// Makes room for items, and for as many sockets that listen.
    pub(crate) fn make_spare(&mut self, items: u64) -> Result<(), NoMemory>
        ensures net { self.new ≡ record self.old { spare = self.new.spare } }
        ensures room { OnOk result (items ≤ self.new.spare) }
        ensures kept { self.old.spare ≤ self.new.spare }
        ensures err { OnErr result (self.new ≡ self.old) }
    {
        let spare = self.spare.max(items);
        self.listening.reserve(spare as usize)?;
        self.items.reserve(spare as usize)?;
        self.spare = spare;
        Ok(())
    }

    /// Notes an item that gives no socket, and is of no wait and no close.
    pub(crate) fn note(&mut self, item: Item)
        requires room { 1 ≤ self.old.spare }
        requires quiet { IsQuiet item self.old.trace }
        ensures { self.new ≡ after_item self.old item self.old.told }
    {
        self.spare -= 1;
        add_copy(&mut self.items, &item);
    }

    /// Notes that a send or a receive failed.
    pub(crate) fn note_failed(&mut self, socket: u32, sending: bool, cause: Cause)
        requires room { 1 ≤ self.old.spare }
        requires named { has (named self.old.trace) socket ≡ true }
        ensures { self.new ≡ after_item self.old (item.DataFailed socket sending cause) self.old.told }
    {
        self.note(Item::DataFailed {
            socket,
            sending,
            cause,
        });
    }

    /// Notes a wait or an accept more.
    pub(crate) fn note_turn(&mut self)
        ensures { self.new ≡ after_turn self.old }
    {
        self.turns = self.turns.saturating_add(1);
    }

    /// Notes that an accept was faulted.
    pub(crate) fn note_fault(&mut self)
        requires room { 1 ≤ self.old.spare }
        ensures { self.new ≡ after_fault self.old }
    {
        self.turns = self.turns.saturating_add(1);
        self.faults = self.faults.saturating_add(1);
        let at = self.told;
        self.note(Item::Faulted { at });
    }

    /// Notes a call that was timed.
    pub(crate) fn note_timed(&mut self, call: TimedCall)
        requires next { IsNextMoment (net_of self.old) call.at }
        ensures { self.new ≡ after_timed self.old call }
    {
        self.told = call.at;
        self.timed = self.timed.saturating_add(1);
        self.last_timed = Some(call);
    }

    /// Notes an accept that found no connection.
    pub(crate) fn note_timed_accept(&mut self, listener: u32, until: u64) -> AcceptAnswer
        requires until { until < 2 ^ 63 }
        ensures answer { result ≡ Timed (max self.old.told until) }
        ensures next { IsNextMoment (net_of self.old) (max self.old.told until) }
        ensures net { self.new ≡ after_timed (after_turn self.old) (record {
          kind = kind.Accept;
          socket = listener;
          until = until;
          at = max self.old.told until;
        }) }
    {
        let at = self.time().max(until);
        self.note_turn();
        self.note_timed(TimedCall {
            kind: TimedKind::Accept,
            socket: listener,
            until,
            at,
        });
        AcceptAnswer::Timed { at }
    }

    /// Notes a wait.
    pub(crate) fn note_wait(&mut self, until: u64, answer: WaitAnswer)
        requires room { 1 ≤ self.old.spare }
        requires next { IsNextMoment (net_of self.old) answer.at }
        requires ends { EndsInTime answer.how until answer.at self.old.trace }
        ensures { self.new ≡ after_wait self.old until answer }
    {
        let WaitAnswer { at, how } = answer;
        self.told = at;
        self.spare -= 1;
        self.turns = self.turns.saturating_add(1);
        self.faults = count_after(self.faults, how);
        forget_told(&mut self.pending, how);
        add_copy(&mut self.items, &Item::Waited { until, at, how });
    }

    /// Notes a socket that listens.
    pub(crate) fn note_listening(&mut self, target: Target, socket: u32)
        requires room { 1 ≤ self.old.spare }
        requires number { socket ≡ next_number self.old.trace }
        requires stream { stacks.is_stream target.stack ≡ true }
        requires few { length (listeners self.old.trace) < most_listeners }
        ensures { self.new ≡ after_item self.old (item.Listening target socket self.old.told) self.old.told }
    {
        let at = self.told;
        self.spare -= 1;
        self.given += 1;
        self.listened += 1;
        add_listener(&mut self.listening, socket, copy_of(&target));
        add_copy(&mut self.items, &Item::Listening { target, socket, at });
    }

    /// Notes a socket that was started, and begins its connection.
    pub(crate) fn note_start(&mut self, leaf: u32, target: Target, listener: u32, socket: u32)
        requires room { 1 ≤ self.old.spare }
        requires number { socket ≡ next_number self.old.trace }
        requires stream { stacks.is_stream target.stack ≡ true }
        requires listens { listener ≡ listener_for self.old.trace target }
        requires free { length self.old.links < self.old.setting.pairs }
        ensures { self.new ≡ after_start self.old leaf target listener socket }
    {
        let at = self.told;
        let link = take_unused(&mut self.unused, listener, socket);
        self.spare -= 1;
        self.given += 1;
        add(&mut self.links, link);
        add(&mut self.pending, socket);
        add_copy(
            &mut self.items,
            &Item::Started {
                leaf,
                target,
                socket,
                at,
            },
        );
    }

    /// Notes a socket that was accepted, for the earliest connection that waits.
    pub(crate) fn note_accepted(&mut self, listener: u32, socket: u32)
        requires room { 1 ≤ self.old.spare }
        requires number { socket ≡ next_number self.old.trace }
        requires named { has (named self.old.trace) listener ≡ true }
        requires waits { some_waits listener self.old.links ≡ true }
        ensures { self.new ≡ after_accept self.old listener socket }
    {
        let at = self.told;
        self.spare -= 1;
        self.turns = self.turns.saturating_add(1);
        self.given += 1;
        accept_first(&mut self.links, listener, socket);
        add_copy(
            &mut self.items,
            &Item::Accepted {
                listener,
                socket,
                at,
            },
        );
    }

    /// Notes a close.
    pub(crate) fn note_close(&mut self, socket: u32)
        requires room { 1 ≤ self.old.spare }
        requires named { has (named self.old.trace) socket ≡ true }
        ensures { self.new ≡ after_close self.old socket }
    {
        self.spare -= 1;
        forget(&mut self.pending, socket);
        forget_listener(&mut self.listening, socket);
        close_in(&mut self.links, socket);
        add_copy(&mut self.items, &Item::Closed { socket });
    }

    /// Notes that a sending side was ended.
    pub(crate) fn note_shut(&mut self, socket: u32)
        requires room { 1 ≤ self.old.spare }
        requires named { has (named self.old.trace) socket ≡ true }
        ensures { self.new ≡ after_shut self.old socket }
    {
        self.spare -= 1;
        shut_in(&mut self.links, socket);
        add_copy(&mut self.items, &Item::Shut { socket });
    }

    /// Makes room for bytes to be sent on a socket. Without memory nothing is changed.
    pub(crate) fn make_room_on(&mut self, socket: u32, bytes: usize) -> Result<(), NoMemory>
        requires { has_link self.old.links socket ≡ true }
        ensures ok { OnOk result (self.new ≡ after_room self.old socket bytes) }
        ensures err { OnErr result (self.new ≡ self.old) }
    {
        room_in(&mut self.links, socket, bytes)
    }

    /// Takes bytes that are sent on a socket.
    pub(crate) fn write(&mut self, socket: u32, bytes: &[u8])
        requires found { has_link self.old.links socket ≡ true }
        requires room { IfSome (first_of (link_has socket) self.old.links)
            (λ l. length bytes.now ≤ (own_side l socket).room) }
        requires free { IfSome (first_of (link_has socket) self.old.links)
            (λ l. length bytes.now ≤ free_at (own_end (pair_of l) socket)) }
        ensures { self.new ≡ after_sent self.old socket bytes.now }
    {
        let at = self.told;
        write_in(&mut self.links, socket, bytes, at);
    }

    /// Hands out the oldest bytes that are under way to a socket.
    pub(crate) fn read(&mut self, socket: u32, out: &mut [u8]) -> usize
        requires { has_link self.old.links socket ≡ true }
        ensures count { IfSome (first_of (link_has socket) self.old.links)
            (λ l. result ≡ min (length out.old) (length (under_way (other_end (pair_of l) socket)))) }
        ensures out { IfSome (first_of (link_has socket) self.old.links)
            (λ l. out.new ≡ take result (under_way (other_end (pair_of l) socket)) ++ drop result out.old) }
        ensures net { self.new ≡ after_read self.old socket result }
    {
        read_in(&mut self.links, socket, out)
    }
}

// One of those that were not started, which is started.
fn take_unused(unused: &mut Vec<Link>, listener: u32, socket: u32) -> Link
    requires some { 1 ≤ vec_len unused.old }
    ensures link { (capacity : ℕ) → All (λ l. l ≡ unused_link capacity) unused.old.items
        → result ≡ started_link capacity listener socket }
    ensures rest { (capacity : ℕ) → All (λ l. l ≡ unused_link capacity) unused.old.items
        → All (λ l. l ≡ unused_link capacity) unused.new.items }
    ensures fewer { vec_len unused.new + 1 ≡ vec_len unused.old }
{
    match unused.pop() {
        Some(mut link) => {
            link.start(listener, socket);
            link
        }
        None => unreachable!(),
    }
}

fn forget(pending: &mut Vec<u32>, socket: u32)
    ensures rest { pending.new.items ≡ filter (λ s. not (socket == s)) pending.old.items }
    ensures fewer { vec_len pending.new ≤ vec_len pending.old }
    ensures room { vec_capacity pending.new ≡ vec_capacity pending.old }
{
    pending.retain(move |s| socket != *s);
}

fn forget_told(pending: &mut Vec<u32>, how: How)
    ensures rest { pending.new.items ≡ without_told how pending.old.items }
    ensures fewer { vec_len pending.new ≤ vec_len pending.old }
    ensures room { vec_capacity pending.new ≡ vec_capacity pending.old }
{
    match how {
        How::Completed(socket) => forget(pending, socket),
        How::Broke(socket, _) => forget(pending, socket),
        How::Reached | How::Faulted => {}
    }
}

fn count_after(faults: u64, how: How) -> u64
    ensures { result ≡ count_after how faults }
{
    match how {
        How::Faulted => faults.saturating_add(1),
        How::Reached | How::Completed(_) | How::Broke(_, _) => faults,
    }
}

fn copy_of(target: &Target) -> Target
    ensures { result ≡ target.now }
{
    *target
}

fn add_listener(listening: &mut Vec<Listening>, socket: u32, target: Target)
    requires { vec_len listening.old < vec_capacity listening.old }
    ensures items { listening.new.items ≡ listening.old.items ++ record { socket = socket; target = target } ∷ [] }
    ensures len { vec_len listening.new ≡ vec_len listening.old + 1 }
    ensures room { vec_capacity listening.old ≤ vec_capacity listening.new }
{
    add_copy(listening, &Listening { socket, target });
}
