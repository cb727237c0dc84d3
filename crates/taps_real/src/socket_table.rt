ghost use Rattle.std.specs.Prelude.{◌≡◌, ◌<◌, ◌≤◌, ◌^◌, ◌-◌, ◌∷◌, ◌++◌, [], ◌==◌, not, filter, ℕ, List, length, take, reverse, true, Some, slice_get, slice_set, IfSome, OnOk, OnErr, vec_len, vec_capacity};
ghost use Rattle.taps_stack.specs.StackTable as stacks;
ghost use Rattle.taps_socket.specs.declared.item.Item.TheVariants.{Started, Closed, Listening, Accepted, DataFailed};
ghost use Rattle.taps_socket.specs.declared.answers.SendAnswer.TheVariants.{Sent};
ghost use Rattle.taps_socket.specs.RaceSockets.{has, pending_sockets};
ghost use Rattle.taps_socket.specs.LiveSockets.{given, named};
ghost use Rattle.taps_socket.specs.Sides.{carries_stream};
ghost use Rattle.taps_socket.specs.Net.{with_room, after_send, IsNextMoment, IsGiven};
ghost use Rattle.taps_socket.specs.Shows.{EndsInTime};
ghost use Rattle.taps_real.specs.Channels.{with_room_of, sent_in, IsChanged};
ghost use Rattle.taps_real.specs.OpenSockets.{is_open};
ghost use Rattle.taps_real.specs.Tables.{net_of, none_given, after_item, after_reserve, after_timed, after_wait, after_fault, after_got, with_socket, IsQuiet, IsAsRoomy, count_after, without_told};

use crate::channel::Channel;
use crate::held::Held;
use crate::room::{add, add_copy};
use std::alloc::Global;
use std::marker::Model;
use taps_base::NoMemory;
use taps_socket::{Cause, How, Item, Target, TimedCall, WaitAnswer};
use taps_stack::is_stream;

/// The sockets that were given, by their numbers 0, 1, 2 and so on, and all that was reported of them.
/// There is a socket of the system for each number that was not closed, and for no other.
#[derive(Drop)]
pub(crate) struct SocketTable {
    items: Vec<Item>,
    spare: u64,
    entries: Vec<Held>,
    channels: Vec<Channel>,
    pending: Vec<u32>,
    told: u64,
    faults: u64,
    timed: u64,
    last_timed: Option<TimedCall>,
}

impl Model for SocketTable {
    ghost use Rattle.std.specs.Prelude.{reverse, vec_len, vec_capacity};
    ghost use Rattle.taps_real.specs.Tables.{Table, IsKept, AreChannels, HasRoom};
    ghost use Rattle.taps_real.specs.OpenSockets.{AreOpen};

    ghost Value = { Table };

    ghost view = { λ s. record {
      trace = reverse s.items.items;
      told = s.told;
      spare = s.spare;
      faults = s.faults;
      channels = s.channels.items;
      timed = s.timed;
      last_timed = s.last_timed;
    } };

    ghost invariant = { λ s.
        IsKept (reverse s.items.items) s.told (vec_len s.entries) s.pending.items
        × AreChannels (reverse s.items.items) (vec_len s.entries) s.channels.items
        × HasRoom s.spare (vec_len s.items) (vec_capacity s.items)
        × HasRoom s.spare (vec_len s.entries) (vec_capacity s.entries)
        × HasRoom s.spare (vec_len s.channels) (vec_capacity s.channels)
        × HasRoom s.spare (vec_len s.pending) (vec_capacity s.pending)
        × AreOpen (reverse s.items.items) (vec_len s.entries) s.entries.items };
}

impl SocketTable {
    /// No socket yet.
    pub(crate) fn new(alloc: Global) -> SocketTable
        ensures { result ≡ none_given }
    {
        SocketTable {
            items: Vec::new(alloc),
            spare: 0,
            entries: Vec::new(alloc),
            channels: Vec::new(alloc),
            pending: Vec::new(alloc),
            told: 0,
            faults: 0,
            timed: 0,
            last_timed: None,
        }
    }

    /// The items so far, oldest first.
    pub(crate) fn items(&self) -> &[Item]
        ensures { reverse result.now ≡ self.now.trace }
    {
        &self.items
    }

    /// How often a call was faulted.
    pub(crate) fn faults(&self) -> u64
        ensures { result ≡ self.now.faults }
    {
        self.faults
    }

    /// The last reported time, in milliseconds.
    pub(crate) fn told(&self) -> u64
        ensures told { result ≡ self.now.told }
        ensures fits { result < 2 ^ 63 }
    {
        self.told
    }

    /// The number of the next socket, if there is one more.
    pub(crate) fn next_number(&self) -> Option<u32>
        ensures number { IfSome result (λ s. s ≡ length (given self.now.trace)) }
        ensures given { IfSome result (λ s. IsGiven s (net_of self.now)) }
    {
        if self.entries.len() < u32::MAX as usize {
            Some(self.entries.len() as u32)
        } else {
            None
        }
    }

    /// The socket of the system under a number.
    pub(crate) fn held(&self, socket: u32) -> &Held
        requires named { has (named self.now.trace) socket ≡ true }
    {
        &self.entries[socket as usize]
    }

    /// Whether a socket carries a stream, and not datagrams.
    pub(crate) fn is_stream(&self, socket: u32) -> bool
        requires named { has (named self.now.trace) socket ≡ true }
        ensures { result ≡ carries_stream self.now.trace socket }
    {
        channel_at(&self.channels, socket as usize).stream
    }

    /// How many sockets are pending.
    pub(crate) fn pending(&self) -> usize
        ensures { result ≡ length (pending_sockets self.now.trace) }
    {
        self.pending.len()
    }

    /// The pending socket at a place, the earliest started at 0.
    pub(crate) fn pending_at(&self, place: usize) -> u32
        requires { place < length (pending_sockets self.now.trace) }
        ensures { has (pending_sockets self.now.trace) result ≡ true }
    {
        self.pending[place]
    }

    /// Makes room for items, and for as many sockets.
    pub(crate) fn reserve(&mut self, items: u64) -> Result<(), NoMemory>
        ensures net { self.new ≡ after_reserve self.old self.new.spare }
        ensures room { OnOk result (items ≤ self.new.spare) }
        ensures kept { self.old.spare ≤ self.new.spare }
        ensures err { OnErr result (self.new ≡ self.old) }
    {
        let spare = self.spare.max(items);
        self.entries.reserve(spare as usize)?;
        self.channels.reserve(spare as usize)?;
        self.pending.reserve(spare as usize)?;
        self.items.reserve(spare as usize)?;
        self.spare = spare;
        Ok(())
    }

    /// Makes room for bytes to be sent on a socket. They are not kept here, so it takes no memory.
    pub(crate) fn make_room(&mut self, socket: u32, bytes: usize)
        requires named { has (named self.old.trace) socket ≡ true }
        ensures net { net_of self.new ≡ with_room (net_of self.old) socket ((net_of self.new).traffic socket).room }
        ensures room { bytes ≤ ((net_of self.new).traffic socket).room }
        ensures kept { ((net_of self.old).traffic socket).room ≤ ((net_of self.new).traffic socket).room }
    {
        room_at(&mut self.channels, socket as usize, bytes);
    }

    /// Notes an item that gives no socket, and is of no wait and no close.
    pub(crate) fn note(&mut self, item: Item, at: u64)
        requires room { 1 ≤ self.old.spare }
        requires quiet { IsQuiet item self.old.trace }
        requires next { IsNextMoment (net_of self.old) at }
        ensures { self.new ≡ after_item self.old item at }
    {
        self.told = at;
        self.spare -= 1;
        add_copy(&mut self.items, &item);
    }

    /// Notes such an item that tells no time.
    pub(crate) fn note_still(&mut self, item: Item)
        requires room { 1 ≤ self.old.spare }
        requires quiet { IsQuiet item self.old.trace }
        ensures { self.new ≡ after_item self.old item self.old.told }
    {
        let at = self.told();
        self.note(item, at);
    }

    /// Notes that a send or a receive failed.
    pub(crate) fn note_failed(&mut self, socket: u32, sending: bool, cause: Cause)
        requires room { 1 ≤ self.old.spare }
        requires named { has (named self.old.trace) socket ≡ true }
        ensures { self.new ≡ after_item self.old (DataFailed socket sending cause) self.old.told }
    {
        self.note_still(Item::DataFailed {
            socket,
            sending,
            cause,
        });
    }

    /// Notes that an accept was faulted.
    pub(crate) fn note_fault(&mut self, at: u64)
        requires room { 1 ≤ self.old.spare }
        requires next { IsNextMoment (net_of self.old) at }
        ensures { self.new ≡ after_fault self.old at }
    {
        self.faults = self.faults.saturating_add(1);
        self.note(Item::Faulted { at }, at);
    }

    /// Notes a socket that was started.
    pub(crate) fn note_start(&mut self, leaf: u32, target: Target, socket: u32, at: u64, held: Held)
        requires room { 1 ≤ self.old.spare }
        requires next { IsNextMoment (net_of self.old) at }
        requires number { socket ≡ length (given self.old.trace) }
        requires opened { is_open held ≡ true }
        ensures { self.new ≡
            with_socket (after_item self.old (Started leaf target socket at) at) (stacks.is_stream target.stack) }
    {
        self.told = at;
        self.spare -= 1;
        add(&mut self.entries, held);
        add(&mut self.channels, Channel::new(is_stream(target.stack)));
        add(&mut self.pending, socket);
        add_copy(
            &mut self.items,
            &Item::Started {
                leaf,
                target,
                socket,
                at,
            },
        );
    }

    /// Notes a socket that listens.
    pub(crate) fn note_listening(&mut self, target: Target, socket: u32, at: u64, held: Held)
        requires room { 1 ≤ self.old.spare }
        requires next { IsNextMoment (net_of self.old) at }
        requires number { socket ≡ length (given self.old.trace) }
        requires opened { is_open held ≡ true }
        ensures { self.new ≡
            with_socket (after_item self.old (Listening target socket at) at) (stacks.is_stream target.stack) }
    {
        self.told = at;
        self.spare -= 1;
        add(&mut self.entries, held);
        add(&mut self.channels, Channel::new(is_stream(target.stack)));
        add_copy(&mut self.items, &Item::Listening { target, socket, at });
    }

    /// Notes a socket that a listening one gave. It carries what that one carries.
    pub(crate) fn note_accepted(&mut self, listener: u32, socket: u32, at: u64, held: Held)
        requires room { 1 ≤ self.old.spare }
        requires next { IsNextMoment (net_of self.old) at }
        requires number { socket ≡ length (given self.old.trace) }
        requires opened { is_open held ≡ true }
        requires named { has (named self.old.trace) listener ≡ true }
        ensures { self.new ≡
            with_socket (after_item self.old (Accepted listener socket at) at)
            (carries_stream self.old.trace listener) }
    {
        let stream = self.is_stream(listener);
        self.told = at;
        self.spare -= 1;
        add(&mut self.entries, held);
        add(&mut self.channels, Channel::new(stream));
        add_copy(
            &mut self.items,
            &Item::Accepted {
                listener,
                socket,
                at,
            },
        );
    }

    /// Notes the end of a wait. A socket of which it told is pending no more.
    pub(crate) fn note_wait(&mut self, until: u64, answer: WaitAnswer)
        requires room { 1 ≤ self.old.spare }
        requires next { IsNextMoment (net_of self.old) answer.at }
        requires ends { EndsInTime answer.how until answer.at self.old.trace }
        ensures { self.new ≡ after_wait self.old until answer }
    {
        let WaitAnswer { at, how } = answer;
        self.told = at;
        self.spare -= 1;
        self.faults = count_after(self.faults, how);
        forget_told(&mut self.pending, how);
        add_copy(&mut self.items, &Item::Waited { until, at, how });
    }

    /// Closes a socket of the system, and notes it.
    pub(crate) fn note_close(&mut self, socket: u32)
        requires room { 1 ≤ self.old.spare }
        requires named { has (named self.old.trace) socket ≡ true }
        ensures { self.new ≡ after_item self.old (Closed socket) self.old.told }
    {
        self.spare -= 1;
        forget(&mut self.pending, socket);
        close_at(&mut self.entries, socket as usize);
        add_copy(&mut self.items, &Item::Closed { socket });
    }

    /// Notes a call that was timed.
    pub(crate) fn note_timed(&mut self, call: TimedCall)
        requires next { IsNextMoment (net_of self.old) call.at }
        ensures { self.new ≡ after_timed self.old call }
    {
        self.told = call.at;
        self.timed = self.timed.saturating_add(1);
        self.last_timed = Some(call);
    }

    /// Notes that the first so many bytes of a send were taken.
    pub(crate) fn note_sent(&mut self, socket: u32, count: usize, at: u64)
        requires named { has (named self.old.trace) socket ≡ true }
        requires next { IsNextMoment (net_of self.old) at }
        ensures { (bytes : List ℕ) (until : ℕ) → count ≤ length bytes →
            net_of self.new ≡ after_send socket bytes until (Sent count at) (net_of self.old) }
    {
        self.told = at;
        sent_at(&mut self.channels, socket as usize, count, at);
    }

    /// Notes that bytes came. No more is kept of them than the time.
    pub(crate) fn note_got(&mut self, at: u64)
        requires next { IsNextMoment (net_of self.old) at }
        ensures { self.new ≡ after_got self.old at }
    {
        self.told = at;
    }
}

fn channel_at(channels: &Vec<Channel>, place: usize) -> &Channel
    requires { place < vec_len channels.now }
    ensures { slice_get channels.now.items place ≡ Some result.now }
{
    &channels[place]
}

fn room_at(channels: &mut Vec<Channel>, place: usize, bytes: usize)
    requires { place < vec_len channels.old }
    ensures set { IsChanged (λ c. with_room_of c bytes) place channels.old.items channels.new.items }
    ensures same { IsAsRoomy (vec_len channels.old) (vec_capacity channels.old)
        (vec_len channels.new) (vec_capacity channels.new) }
{
    channels[place].make_room(bytes);
}

fn sent_at(channels: &mut Vec<Channel>, place: usize, count: usize, at: u64)
    requires { place < vec_len channels.old }
    ensures set { IsChanged (λ c. sent_in c count at) place channels.old.items channels.new.items }
    ensures same { IsAsRoomy (vec_len channels.old) (vec_capacity channels.old)
        (vec_len channels.new) (vec_capacity channels.new) }
{
    channels[place].note_sent(count, at);
}

fn close_at(entries: &mut Vec<Held>, place: usize)
    requires { place < vec_len entries.old }
    ensures items { entries.new.items ≡ slice_set entries.old.items place Held.Closed }
    ensures len { vec_len entries.new ≡ vec_len entries.old }
    ensures room { vec_capacity entries.new ≡ vec_capacity entries.old }
{
    entries[place] = Held::Closed;
}

fn forget(pending: &mut Vec<u32>, socket: u32)
    ensures rest { pending.new.items ≡ filter (λ s. not (socket == s)) pending.old.items }
    ensures fewer { vec_len pending.new ≤ vec_len pending.old }
    ensures room { vec_capacity pending.new ≡ vec_capacity pending.old }
{
    pending.retain(move |s| socket != *s);
}

fn forget_told(pending: &mut Vec<u32>, how: How)
    ensures rest { pending.new.items ≡ without_told how pending.old.items }
    ensures fewer { vec_len pending.new ≤ vec_len pending.old }
    ensures room { vec_capacity pending.new ≡ vec_capacity pending.old }
{
    match how {
        How::Completed(socket) => forget(pending, socket),
        How::Broke(socket, _) => forget(pending, socket),
        How::Reached | How::Faulted => {}
    }
}

fn count_after(faults: u64, how: How) -> u64
    ensures { result ≡ count_after how faults }
{
    match how {
        How::Faulted => faults.saturating_add(1),
        How::Reached | How::Completed(_) | How::Broke(_, _) => faults,
    }
}
