ghost use Rattle.std.specs.Prelude.{◌≡◌, ◌<◌, ◌≤◌, ◌^◌, ◌-◌, ◌+◌, ℕ, List, length, reverse, max, slice_get, slice_set, Some, true, false, Err, IfOk, OnOk, OnErr, vec_len, vec_capacity};
ghost use Rattle.taps_stack.specs.StackTable as stacks;
ghost use Rattle.taps_socket.specs.declared.item.Item.TheVariants.{Began, Started, Refused, Waited, Closed, Shut, Ended};
ghost use Rattle.taps_socket.specs.RaceSockets.{has};
ghost use Rattle.taps_socket.specs.RaceSockets as sockets;
ghost use Rattle.taps_socket.specs.LiveSockets.{named, named_by_end};
ghost use Rattle.taps_socket.specs.Sides.{carries_stream};
ghost use Rattle.taps_socket.specs.Calls.{waits, started_at};
ghost use Rattle.taps_socket.specs.Net.{Net, IsNextMoment, GivesNewSocket, MayEnd};
ghost use Rattle.taps_script.specs.declared.line.Line.{Line};
ghost use Rattle.taps_script.specs.declared.script_error.ScriptError.TheVariants as error;
ghost use Rattle.taps_script.specs.SomeRace.{GoesOnFrom};
ghost use Rattle.taps_script.specs.Scripts.{script_of, IsMeaning, IsScriptOf};
ghost use Rattle.taps_script.specs.ScriptAnswers as answers;
ghost use Rattle.taps_script.specs.DataAnswers as data_answers;
ghost use Rattle.taps_script.specs.DataAnswers.{received};
ghost use Rattle.taps_script.specs.Channels.{Channel};
ghost use Rattle.taps_script.specs.ReceiveFacts.{ReceivesOn};
ghost use Rattle.taps_script.specs.ScriptNet.{Scripted, net_of, at_first, after_quiet, after_start, after_wait, after_timed, with_channel, at_time, sent_in, read_in, count_after, link_at, IsQuiet, IsSendable, IsReadable, IsSendStep, IsReceiveStep, read_count, read_by, IsAsRoomy, after_send_by, after_receive_by, HasChannel, IsBelowLast, StaysScripted};

use crate::channel::Channel;
use crate::events::{add_event, answer_by, first_event, forget, forget_told, to_come};
use crate::receiving::receive_step;
use crate::room::{add, add_copy};
use crate::script::Script;
use crate::sending::{SendStep, send_step};
use crate::{Fate, ScriptError};
use std::alloc::Global;
use std::marker::Model;
use taps_base::NoMemory;
use taps_socket::{
    AcceptAnswer, Cause, How, Item, ListenAnswer, RecvAnswer, SendAnswer, Sockets, StartAnswer,
    Target, TimedCall, TimedKind, WaitAnswer,
};
use taps_stack::is_stream;

/// Sockets that answer by a script.
///
/// Contracts see the lines of the script and the clock beside what they see of all sockets; each
/// answer is a function of the lines and of the calls before it.
#[derive(Drop)]
pub struct ScriptSockets {
    script: Script,
    alloc: Global,
    items: Vec<Item>,
    spare: u64,
    clock: u64,
    told: u64,
    waits: u64,
    faults: u64,
    started: u32,
    events: Vec<WaitAnswer>,
    channels: Vec<Channel>,
    timed: u64,
    last_timed: Option<TimedCall>,
}

impl Model for ScriptSockets {
    ghost use Rattle.std.specs.Prelude.{◌+◌, ◌≤◌, reverse, vec_len, vec_capacity};
    ghost use Rattle.taps_script.specs.Channels.{Channel};
    ghost use Rattle.taps_script.specs.ReceiveFacts.{ReceivesOn};
    ghost use Rattle.taps_script.specs.ScriptNet.{Scripted, IsKept, AreChannels, HasRoom};

    ghost Value = { Scripted };

    ghost view = { λ s. record {
      lines = s.script;
      clock = s.clock;
      trace = reverse s.items.items;
      told = s.told;
      spare = s.spare;
      faults = s.faults;
      channels = s.channels.items;
      timed = s.timed;
      last_timed = s.last_timed;
    } };

    ghost invariant = { λ s. IsKept s.script (reverse s.items.items) s.clock s.told s.waits s.started s.events.items
        × AreChannels s.script (reverse s.items.items) s.started s.channels.items
        × HasRoom s.spare (vec_len s.items) (vec_capacity s.items)
        × HasRoom s.spare (vec_len s.events) (vec_capacity s.events)
        × HasRoom s.spare (vec_len s.channels) (vec_capacity s.channels) };
}

impl ScriptSockets {
    /// The sockets of a script.
    pub fn read(alloc: Global, text: &[u8]) -> Result<ScriptSockets, ScriptError>
        ensures meaning { IsMeaning (λ s. s.lines) (script_of text.now) result }
        ensures first { IfOk result (λ s. s ≡ at_first s.lines) }
        ensures found { IfOk result (λ s. IsScriptOf s.lines text.now) }
        ensures only { (lines : List Line) → IsScriptOf lines text.now
            → (number : ℕ) → result ≡ Err (error.Line number) → ⊥ }
    {
        ScriptSockets::make(alloc, text)
    }

    fn make(alloc: Global, text: &[u8]) -> Result<ScriptSockets, ScriptError>
        ensures meaning { IsMeaning (λ s. s.lines) (script_of text.now) result }
        ensures first { IfOk result (λ s. s ≡ at_first s.lines) }
    {
        let script = Script::read(alloc, text)?;
        let clock = script.begin();
        Ok(ScriptSockets {
            script,
            alloc,
            items: Vec::new(alloc),
            spare: 0,
            clock,
            told: 0,
            waits: 0,
            faults: 0,
            started: 0,
            events: Vec::new(alloc),
            channels: Vec::new(alloc),
            timed: 0,
            last_timed: None,
        })
    }

    // What is kept lets a race go on from here.
    pub(crate) fn vouch(&self)
        ensures { GoesOnFrom self.now }
    {
        let _ = &self.script;
    }

    /// The items so far, the first of them first.
    pub fn items(&self) -> &[Item]
        ensures { reverse result.now ≡ self.now.trace }
    {
        &self.items
    }

    fn clock(&self) -> u64
        ensures clock { result ≡ self.now.clock }
        ensures next { IsNextMoment (net_of self.now) result }
    {
        self.clock
    }

    fn start_answer(&self, leaf: u32) -> StartAnswer
        ensures answer { result ≡ answers.start_answer self.now.lines self.now.clock self.now.trace leaf }
        ensures next { IsNextMoment (net_of self.now) (started_at result) }
        ensures socket { GivesNewSocket result (net_of self.now) }
        ensures few { IsBelowLast result }
    {
        let at = self.clock;
        let socket = self.started;
        if socket == u32::MAX {
            let cause = Cause::Memory;
            return StartAnswer::Refused { cause, at };
        }
        match self.script.fate(leaf) {
            Fate::Refuses(cause) => StartAnswer::Refused { cause, at },
            Fate::Completes(_) | Fate::Breaks(_, _) | Fate::Silent => {
                StartAnswer::Started { socket, at }
            }
        }
    }

    fn wait_answer(&self, until: u64) -> WaitAnswer
        ensures answer { result ≡ answers.wait_answer self.now.lines self.now.clock self.now.trace until }
        ensures next { IsNextMoment (net_of self.now) result.at }
        ensures ends { (after : Net) → after.faults ≡ count_after result.how self.now.faults
            → MayEnd result.how until result.at (net_of self.now) after }
        ensures names { (s : ℕ) → has (named_by_end result.how) s ≡ true → has (named self.now.trace) s ≡ true }
    {
        let _ = &self.script;
        self.choose_answer(until)
    }

    fn choose_answer(&self, until: u64) -> WaitAnswer
        ensures { result ≡ answers.wait_answer self.now.lines self.now.clock self.now.trace until }
    {
        let now = self.clock;
        if self.script.is_to_fault(self.waits) {
            let how = How::Faulted;
            return WaitAnswer { at: now, how };
        }
        answer_by(now, self.script.late(), until, first_event(&self.events))
    }

    // Notes an item of no start, no wait and no close, with the clock after it.
    fn note(&mut self, item: Item, clock: u64, told: u64)
        requires room { 1 ≤ self.old.spare }
        requires quiet { IsQuiet item self.old.trace }
        requires told { told ≤ clock }
        requires fits { clock < 2 ^ 63 }
        ensures { self.new ≡ after_quiet self.old item clock told }
    {
        self.clock = clock;
        self.told = told;
        self.spare -= 1;
        add_copy(&mut self.items, &item);
    }

    // Notes a call that was timed.
    fn note_timed(&mut self, call: TimedCall)
        requires { call.at < 2 ^ 63 }
        ensures { self.new ≡ after_timed self.old call }
    {
        self.clock = call.at;
        self.told = call.at;
        self.timed = self.timed.saturating_add(1);
        self.last_timed = Some(call);
    }

    fn note_refusal(&mut self, leaf: u32, target: Target, cause: Cause, at: u64)
        requires room { 1 ≤ self.old.spare }
        requires fits { at < 2 ^ 63 }
        ensures { self.new ≡ after_quiet self.old (Refused leaf target cause at) at at }
    {
        self.note(
            Item::Refused {
                leaf,
                target,
                cause,
                at,
            },
            at,
            at,
        );
    }

    fn note_start(&mut self, leaf: u32, target: Target, socket: u32, at: u64)
        requires room { 1 ≤ self.old.spare }
        requires moment { at ≡ self.old.clock }
        requires number { socket ≡ length (sockets.started self.old.trace) }
        requires few { socket < 2 ^ 32 - 1 }
        ensures { self.new ≡ after_start self.old leaf target socket at }
    {
        let event = to_come(self.script.fate(leaf), socket, self.clock);
        let channel = Channel::new(self.alloc, is_stream(target.stack), time_in(event));
        self.told = self.clock;
        self.spare -= 1;
        self.started += 1;
        add_event(&mut self.events, event);
        add(&mut self.channels, channel);
        add_copy(
            &mut self.items,
            &Item::Started {
                leaf,
                target,
                socket,
                at,
            },
        );
    }

    fn note_wait(&mut self, until: u64, answer: WaitAnswer)
        requires room { 1 ≤ self.old.spare }
        requires fits { answer.at < 2 ^ 63 }
        requires names { (s : ℕ) → has (named_by_end answer.how) s ≡ true → has (named self.old.trace) s ≡ true }
        ensures { self.new ≡ after_wait self.old until answer }
    {
        let WaitAnswer { at, how } = answer;
        self.clock = at;
        self.told = at;
        self.spare -= 1;
        self.waits += 1;
        self.faults = count_after(self.faults, how);
        forget_told(&mut self.events, how);
        add_copy(&mut self.items, &Item::Waited { until, at, how });
    }

    fn note_close(&mut self, socket: u32)
        requires room { 1 ≤ self.old.spare }
        requires named { has (named self.old.trace) socket ≡ true }
        ensures { self.new ≡ after_quiet self.old (Closed socket) self.old.clock self.old.told }
    {
        self.spare -= 1;
        forget(&mut self.events, socket);
        add_copy(&mut self.items, &Item::Closed { socket });
    }
}

impl Sockets for ScriptSockets {
    ghost use Rattle.taps_script.specs.ScriptNet.{net_of, StaysScripted};
    ghost use Rattle.taps_script.specs.Goings.{goes_none, goes_on};

    ghost net = { net_of };

    ghost Becomes = { StaysScripted };

    ghost becomes_itself = { goes_none };

    ghost becomes_on = { goes_on };

    ghost shows = { λ a b calls h. h.shows };

    fn reserve(&mut self, items: u64) -> Result<(), NoMemory> {
        let spare = self.spare.max(items);
        self.channels.reserve(spare as usize)?;
        self.events.reserve(spare as usize)?;
        self.items.reserve(spare as usize)?;
        self.spare = spare;
        Ok(())
    }

    fn now(&mut self) -> u64 {
        let at = self.clock();
        self.note(Item::Began { at }, at, at);
        at
    }

    fn start(&mut self, leaf: u32, target: Target) -> StartAnswer {
        let answer = self.start_answer(leaf);
        match answer {
            StartAnswer::Started { socket, at } => self.note_start(leaf, target, socket, at),
            StartAnswer::Refused { cause, at } => self.note_refusal(leaf, target, cause, at),
        }
        answer
    }

    fn wait(&mut self, until: u64) -> WaitAnswer {
        let answer = self.wait_answer(until);
        self.note_wait(until, answer);
        answer
    }

    fn close(&mut self, socket: u32) {
        self.note_close(socket);
    }

    fn listen(&mut self, target: Target) -> ListenAnswer {
        let at = self.clock();
        let cause = Cause::Other;
        self.note(Item::NotListening { target, cause, at }, at, at);
        ListenAnswer::Refused { cause, at }
    }

    fn accept(&mut self, listener: u32, until: u64) -> AcceptAnswer {
        let at = self.clock().max(until);
        let kind = TimedKind::Accept;
        self.note_timed(TimedCall {
            kind,
            socket: listener,
            until,
            at,
        });
        AcceptAnswer::Timed { at }
    }

    fn make_room(&mut self, socket: u32, bytes: usize) -> Result<(), NoMemory> {
        self.find(socket);
        self.make_room_at(socket, bytes)
    }

    fn send(&mut self, socket: u32, bytes: &[u8], until: u64) -> SendAnswer {
        self.find(socket);
        let step = self.send_step(socket, bytes.len(), until);
        self.note_send(socket, bytes, until, step);
        step.answer
    }

    fn shut(&mut self, socket: u32) {
        let (clock, told) = (self.clock, self.told);
        self.note(Item::Shut { socket }, clock, told);
    }

    fn recv(&mut self, socket: u32, out: &mut [u8], until: u64) -> RecvAnswer {
        let (clock, answer) = self.receive_step(socket, out, until);
        self.note_receive(socket, until, clock, answer);
        answer
    }
}

fn channel_at(channels: &Vec<Channel>, place: usize) -> &Channel
    requires { place < vec_len channels.now }
    ensures { slice_get channels.now.items place ≡ Some result.now }
{
    &channels[place]
}

fn room_at(channels: &mut Vec<Channel>, place: usize, bytes: usize) -> Result<(), NoMemory>
    requires { place < vec_len channels.old }
    ensures ok { OnOk result ((c : Channel) → slice_get channels.old.items place ≡ Some c
        → channels.new.items ≡ slice_set channels.old.items place (record c { room = max c.room bytes })) }
    ensures err { OnErr result (channels.new.items ≡ channels.old.items) }
    ensures kept { IsAsRoomy (vec_len channels.old) (vec_capacity channels.old)
        (vec_len channels.new) (vec_capacity channels.new) }
{
    channels[place].make_room(bytes)
}

fn sent_at(channels: &mut Vec<Channel>, place: usize, bytes: &[u8], at: u64)
    requires place { place < vec_len channels.old }
    requires room { (c : Channel) → slice_get channels.old.items place ≡ Some c → IsSendable c (length bytes.now) }
    ensures set { (c : Channel) → slice_get channels.old.items place ≡ Some c
        → channels.new.items ≡ slice_set channels.old.items place (sent_in c bytes.now at) }
    ensures kept { IsAsRoomy (vec_len channels.old) (vec_capacity channels.old)
        (vec_len channels.new) (vec_capacity channels.new) }
{
    channels[place].note_sent(bytes, at);
}

fn read_at(channels: &mut Vec<Channel>, place: usize, count: usize)
    requires place { place < vec_len channels.old }
    requires fits { (c : Channel) → slice_get channels.old.items place ≡ Some c → c.read + count < 2 ^ 64 }
    ensures set { (c : Channel) → slice_get channels.old.items place ≡ Some c
        → channels.new.items ≡ slice_set channels.old.items place (read_in c count) }
    ensures kept { IsAsRoomy (vec_len channels.old) (vec_capacity channels.old)
        (vec_len channels.new) (vec_capacity channels.new) }
{
    channels[place].note_read(count);
}

impl ScriptSockets {
    // Nothing: its clause says that a named socket has a channel.
    fn find(&self, socket: u32)
        requires { has (named self.now.trace) socket ≡ true }
        ensures { HasChannel self.now socket }
    {
        let _ = channel_at(&self.channels, socket as usize);
    }

    // Makes room on the channel of a socket. Without memory nothing is changed.
    fn make_room_at(&mut self, socket: u32, bytes: usize) -> Result<(), NoMemory>
        requires { has (named self.old.trace) socket ≡ true }
        ensures ok { OnOk result ((c : Channel) → slice_get self.old.channels socket ≡ Some c
            → self.new ≡ with_channel self.old socket (record c { room = max c.room bytes })) }
        ensures err { OnErr result (self.new ≡ self.old) }
    {
        room_at(&mut self.channels, socket as usize, bytes)
    }

    // Notes bytes that were sent on a socket at a time.
    fn note_sent(&mut self, socket: u32, bytes: &[u8], at: u64)
        requires named { has (named self.old.trace) socket ≡ true }
        requires room { (c : Channel) → slice_get self.old.channels socket ≡ Some c → IsSendable c (length bytes.now) }
        requires fits { at < 2 ^ 63 }
        ensures { (c : Channel) → slice_get self.old.channels socket ≡ Some c
            → self.new ≡ at_time (with_channel self.old socket (sent_in c bytes.now at)) at }
    {
        self.clock = at;
        self.told = at;
        sent_at(&mut self.channels, socket as usize, bytes, at);
    }

    // Notes that so many bytes or datagrams were read on a socket at a time.
    fn note_read(&mut self, socket: u32, count: usize, at: u64)
        requires named { has (named self.old.trace) socket ≡ true }
        requires within { (c : Channel) → slice_get self.old.channels socket ≡ Some c
            → IsReadable self.old.lines c count }
        requires fits { at < 2 ^ 63 }
        ensures { (c : Channel) → slice_get self.old.channels socket ≡ Some c
            → self.new ≡ at_time (with_channel self.old socket (read_in c count)) at }
    {
        self.clock = at;
        self.told = at;
        read_at(&mut self.channels, socket as usize, count);
    }

    // Notes what a send on a socket came to.
    fn note_send(&mut self, socket: u32, bytes: &[u8], until: u64, step: SendStep)
        requires room { 1 ≤ self.old.spare }
        requires named { has (named self.old.trace) socket ≡ true }
        requires sendable { (c : Channel) → slice_get self.old.channels socket ≡ Some c
            → IsSendable c (length bytes.now) }
        requires step { IsSendStep step (carries_stream self.old.trace socket) (length bytes.now) until self.old.told }
        ensures { (c : Channel) → slice_get self.old.channels socket ≡ Some c
            → self.new ≡ after_send_by self.old socket c bytes.now until step.clock step.answer }
    {
        match step.answer {
            SendAnswer::Sent { count, at } => self.note_sent(socket, &bytes[..count], at),
            SendAnswer::Timed { at } => {
                let kind = TimedKind::Send;
                self.note_timed(TimedCall {
                    kind,
                    socket,
                    until,
                    at,
                });
            }
            SendAnswer::Failed(cause) => {
                let sending = true;
                let told = self.told;
                self.note(
                    Item::DataFailed {
                        socket,
                        sending,
                        cause,
                    },
                    step.clock,
                    told,
                );
            }
        }
    }

    // Notes what a receive on a socket came to.
    fn note_receive(&mut self, socket: u32, until: u64, clock: u64, answer: RecvAnswer)
        requires room { 1 ≤ self.old.spare }
        requires named { has (named self.old.trace) socket ≡ true }
        requires readable { (c : Channel) → slice_get self.old.channels socket ≡ Some c
            → IsReadable self.old.lines c (read_by c.stream answer) }
        requires step { IsReceiveStep answer clock until self.old.told }
        ensures { (c : Channel) → slice_get self.old.channels socket ≡ Some c
            → self.new ≡ after_receive_by self.old socket c until clock answer }
    {
        match answer {
            RecvAnswer::Got { count, at } => {
                let count = self.count_read(socket, count);
                self.note_read(socket, count, at);
            }
            RecvAnswer::End => {
                let told = self.told;
                self.note(Item::Ended { socket }, clock, told);
            }
            RecvAnswer::Timed { at } => {
                let kind = TimedKind::Recv;
                self.note_timed(TimedCall {
                    kind,
                    socket,
                    until,
                    at,
                });
            }
            RecvAnswer::Failed(cause) => {
                let sending = false;
                let told = self.told;
                self.note(
                    Item::DataFailed {
                        socket,
                        sending,
                        cause,
                    },
                    clock,
                    told,
                );
            }
        }
    }

    // How far a receive of so many bytes goes on: over a stream by each of them, else by a datagram.
    fn count_read(&self, socket: u32, count: usize) -> usize
        requires { has (named self.now.trace) socket ≡ true }
        ensures { (c : Channel) → slice_get self.now.channels socket ≡ Some c → result ≡ read_count c.stream count }
    {
        let channel = channel_at(&self.channels, socket as usize);
        if channel.is_stream() { count } else { 1 }
    }

    // What a send on a socket comes to.
    fn send_step(&self, socket: u32, count: usize, until: u64) -> SendStep
        requires named { has (named self.now.trace) socket ≡ true }
        requires some { 1 ≤ count }
        requires until { until < 2 ^ 63 }
        ensures answer { result ≡
            data_answers.send_step self.now.lines (link_at self.now socket) self.now.clock count until }
        ensures may { IsSendStep result (carries_stream self.now.trace socket) count until self.now.told }
    {
        let channel = channel_at(&self.channels, socket as usize);
        send_step(self.script.lines(), channel, self.clock, count, until)
    }

    // What a receive on a socket comes to.
    fn receive_step(&self, socket: u32, out: &mut [u8], until: u64) -> (u64, RecvAnswer)
        requires named { has (named self.now.trace) socket ≡ true }
        requires until { until < 2 ^ 63 }
        requires room { carries_stream self.now.trace socket ≡ false → 65535 ≤ length out.old }
        ensures answer { received result.0 out.new result.1 ≡
            data_answers.receive_step self.now.lines (link_at self.now socket) self.now.clock (length out.old) until }
        ensures facts { ReceivesOn self.now socket (length out.old) until (received result.0 out.new result.1) }
        ensures length { length out.new ≡ length out.old }
    {
        let channel = channel_at(&self.channels, socket as usize);
        let _ = channel.read();
        receive_step(self.script.lines(), channel, self.clock, until, out)
    }
}

fn time_in(event: Option<WaitAnswer>) -> u64
    ensures { result ≡ answers.time_in event }
{
    match event {
        Some(event) => event.at,
        None => 0,
    }
}

fn count_after(faults: u64, how: How) -> u64
    ensures { result ≡ count_after how faults }
{
    match how {
        How::Faulted => faults.saturating_add(1),
        How::Reached | How::Completed(_) | How::Broke(_, _) => faults,
    }
}
