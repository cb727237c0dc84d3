// What a connection keeps of its receiving.
ghost use Rattle.std.specs.Prelude.{◌≡◌, ◌≤◌, ◌<◌, ◌^◌, ◌-◌, true, false, List, [], length, IfOk, IsOk, OnOk, OnErr};
ghost use Rattle.taps_framer.specs.Layers.{Layer};
ghost use Rattle.taps_chain.specs.Layers.{layers_of};
ghost use Rattle.taps_connection.specs.Unread.{first_unread, count_given, is_stream_of, IsWanting};
ghost use Rattle.taps_connection.specs.Inboxes.{IsSoundReceiver};
ghost use Rattle.taps_connection.specs.Histories.{Represents};
ghost use Rattle.taps_connection.specs.Sources.{unread_of, IsSoundSource};
ghost use Rattle.taps_connection.specs.Pulls.{IsTakenIn};
ghost use Rattle.taps_connection.specs.Receives.{IsGivenOut};
ghost use Rattle.taps_connection.specs.Asks.{IsRoomLeft};
ghost use Rattle.taps_connection.specs.Rooms.{room_of, piece_of, LacksRoom};
ghost use Rattle.taps_socket.specs.Sides.{carries_stream, may_receive};

use crate::datagrams::Datagrams;
use crate::framed::Framed;
use crate::plain::Plain;
use std::alloc::Global;
use taps_base::NoMemory;
use taps_chain::{Chain, Heard};
use taps_framer::Framer;
use taps_socket::{RecvAnswer, Sockets};
use taps_stack::{Stack, is_stream};

// What its socket carries.
#[derive(Drop)]
pub enum Source<'a> {
    Framed(Framed<'a>),
    Plain(Plain),
    Datagrams(Datagrams),
}

// What was read and not yet given out, and whether the other end ended its sending side.
#[derive(Drop)]
pub struct Receiver<'a> {
    pub source: Source<'a>,
    pub ended: bool,
}

impl<'a> Receiver<'a> {
    #[tactic(auto, using(crate::proofs::Reading::first_represents))]
    // A receiver of which nothing came, which asks for so many bytes at once over a stream.
    pub fn new(
        alloc: Global,
        stack: Stack,
        chain: &Chain<'a>,
        piece: usize,
    ) -> Result<Receiver<'a>, NoMemory>
        requires some { 1 ≤ piece }
        requires few { piece ≤ 65536 }
        ensures unread { IfOk result (λ r. unread_of r.source ≡
            first_unread stack piece (length (layers_of ⟦<dyn Framer as Framer>⟧ chain.now))) }
        ensures ended { IfOk result (λ r. r.ended ≡ false) }
        ensures sound { IfOk result (λ r. IsSoundReceiver ⟦<dyn Framer as Framer>⟧ stack
            (layers_of ⟦<dyn Framer as Framer>⟧ chain.now) r) }
        ensures represents { IfOk result (λ r. Represents (layers_of ⟦<dyn Framer as Framer>⟧ chain.now) r.ended
            (unread_of r.source) [] []) }
    {
        let source = Source::new(alloc, stack, chain, piece)?;
        Ok(Receiver {
            source,
            ended: false,
        })
    }
}

impl<'a> Source<'a> {
    // A source of which nothing came.
    fn new(
        alloc: Global,
        stack: Stack,
        chain: &Chain<'a>,
        piece: usize,
    ) -> Result<Source<'a>, NoMemory>
        requires some { 1 ≤ piece }
        requires few { piece ≤ 65536 }
        ensures unread { IfOk result (λ s. unread_of s ≡
            first_unread stack piece (length (layers_of ⟦<dyn Framer as Framer>⟧ chain.now))) }
        ensures sound { IfOk result (λ s. IsSoundSource ⟦<dyn Framer as Framer>⟧
            (layers_of ⟦<dyn Framer as Framer>⟧ chain.now) s) }
    {
        if !is_stream(stack) {
            return Ok(Source::Datagrams(Datagrams::new(alloc)?));
        }
        if chain.is_empty() {
            return Ok(Source::Plain(Plain::new(alloc, piece)?));
        }
        Ok(Source::Framed(Framed::new(alloc, chain.copy()?, piece)?))
    }

    // The number of messages and bad datagrams that were given out.
    pub fn given(&self) -> u64
        ensures { result ≡ count_given (unread_of self.now) }
    {
        match self {
            Source::Framed(framed) => framed.given(),
            Source::Plain(plain) => plain.given(),
            Source::Datagrams(datagrams) => datagrams.given(),
        }
    }

    // The greatest number of bytes that is asked for at once.
    pub fn piece(&self) -> usize
        ensures piece { result ≡ piece_of (unread_of self.now) }
        ensures few { result ≤ 65536 }
    {
        match self {
            Source::Framed(framed) => framed.piece(),
            Source::Plain(plain) => plain.piece(),
            Source::Datagrams(_) => 65_535,
        }
    }

    // Makes room for bytes. For a datagram it is there.
    pub fn make_room(&mut self, bytes: usize) -> Result<(), NoMemory>
        requires few { bytes ≤ 65536 }
        ensures ok { OnOk result (bytes ≤ room_of self.new) }
        ensures kept { room_of self.old ≤ room_of self.new }
        ensures had { bytes ≤ room_of self.old → IsOk result }
        ensures err { OnErr result (room_of self.new ≡ room_of self.old) }
        ensures unread { unread_of self.new ≡ unread_of self.old }
        ensures sound { (fs : List Layer) →
            IsSoundSource ⟦<dyn Framer as Framer>⟧ fs self.old →
            IsSoundSource ⟦<dyn Framer as Framer>⟧ fs self.new }
    {
        match self {
            Source::Framed(framed) => framed.make_room(bytes),
            Source::Plain(plain) => plain.make_room(bytes),
            Source::Datagrams(_) => Ok(()),
        }
    }

    // Asks the socket once for bytes. Where memory runs out the socket is not asked.
    pub fn ask<N: Sockets>(
        &mut self,
        net: &mut N,
        socket: u32,
        until: u64,
    ) -> Result<RecvAnswer, NoMemory>
        requires wanting { IsWanting (unread_of self.old) }
        requires may { may_receive (N.net net.old).trace socket ≡ true }
        requires stack { carries_stream (N.net net.old).trace socket ≡ is_stream_of (unread_of self.old) }
        requires spare { 1 ≤ (N.net net.old).spare }
        requires until { until < 2 ^ 63 }
        ensures taken_in { IsTakenIn N.Becomes net.old net.new (N.net net.old) (N.net net.new) socket until
            (unread_of self.old) result (unread_of self.new) }
        ensures memory { OnErr result (LacksRoom self.old) }
        ensures room { IsRoomLeft (room_of self.old) result (room_of self.new) }
        ensures sound { (fs : List Layer) →
            IsSoundSource ⟦<dyn Framer as Framer>⟧ fs self.old →
            IsSoundSource ⟦<dyn Framer as Framer>⟧ fs self.new }
        ensures kind { is_stream_of (unread_of self.new) ≡ is_stream_of (unread_of self.old) }
    {
        match self {
            Source::Framed(framed) => framed.ask(net, socket, until),
            Source::Plain(plain) => plain.ask(net, socket, until),
            Source::Datagrams(datagrams) => Ok(datagrams.ask(net, socket, until)),
        }
    }

    // What is given out next, by whether the stream ended.
    pub fn receive(&mut self, chain: &Chain<'_>, ended: bool) -> Heard
        requires given { count_given (unread_of self.old) < 2 ^ 64 - 1 }
        requires sound { IsSoundSource ⟦<dyn Framer as Framer>⟧
            (layers_of ⟦<dyn Framer as Framer>⟧ chain.now) self.old }
        ensures given_out { IsGivenOut (layers_of ⟦<dyn Framer as Framer>⟧ chain.now) ended
            (unread_of self.old) result (unread_of self.new) }
        ensures wanting { result ≡ Heard.Need → IsWanting (unread_of self.new) }
        ensures sound { IsSoundSource ⟦<dyn Framer as Framer>⟧
            (layers_of ⟦<dyn Framer as Framer>⟧ chain.now) self.new }
        ensures kind { is_stream_of (unread_of self.new) ≡ is_stream_of (unread_of self.old) }
    {
        match self {
            Source::Framed(framed) => framed.receive(),
            Source::Plain(plain) => plain.receive(ended),
            Source::Datagrams(datagrams) => datagrams.receive(chain),
        }
    }
}
