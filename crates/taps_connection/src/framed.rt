// A stream that is heard through a chain with a layer.
ghost use Rattle.std.specs.Prelude.{◌≡◌, ◌≤◌, ◌<◌, ◌^◌, ◌+◌, ◌-◌, [], true, false, None, length, IfOk, IsOk, OnOk, OnErr};
ghost use Rattle.taps_chain.specs.Ears.{layers_heard, state_of, IsSound};
ghost use Rattle.taps_chain.specs.Layers.{layers_of};
ghost use Rattle.taps_connection.specs.Asks.{IsAsked, IsRoomLeft};
ghost use Rattle.taps_socket.specs.Sides.{carries_stream, may_receive};

use std::alloc::Global;
use taps_base::NoMemory;
use taps_chain::{Chain, Ears, FeedError, Heard};
use taps_framer::Framer;
use taps_socket::{RecvAnswer, Sockets};

// The ears, and the buffer that takes in what comes: so many bytes are asked for at once as it has.
#[derive(Drop)]
pub struct Framed<'a> {
    ears: Ears<'a>,
    piece: Vec<u8>,
    ghost some: { 1 ≤ length piece.items },
    ghost few: { length piece.items ≤ 65536 },
}

impl<'a> Framed<'a> {
    ghost use Rattle.taps_connection.specs.Unread.{Unread, framed_unread, framed, most_of, IsWanting};
    ghost use Rattle.taps_connection.specs.Pulls.{IsTakenIn};
    ghost use Rattle.taps_connection.specs.Receives.{IsGivenOut};

    pub(crate) fn new(alloc: Global, chain: Chain<'a>, piece: usize) -> Result<Framed<'a>, NoMemory>
        requires chain { 0 < length (layers_of ⟦<dyn Framer as Framer>⟧ chain) }
        requires piece { 1 ≤ piece }
        requires few { piece ≤ 65536 }
        ensures unread { IfOk result (λ f. framed_unread f ≡ framed piece [] 0 None) }
        ensures layers { IfOk result (λ f. layers_heard ⟦<dyn Framer as Framer>⟧ f.ears ≡
            layers_of ⟦<dyn Framer as Framer>⟧ chain.entry) }
        ensures sound { IfOk result (λ f. IsSound ⟦<dyn Framer as Framer>⟧ f.ears) }
    {
        let buffer = vec![in alloc; 0; piece]?;
        let ears = Ears::new(alloc, chain)?;
        Ok(Framed {
            ears,
            piece: buffer,
        })
    }

    // The index of the next message.
    pub(crate) fn given(&self) -> u64
        ensures { result ≡ (state_of self.now.ears).index }
    {
        self.ears.index()
    }

    // How many bytes are asked for at once.
    pub(crate) fn piece(&self) -> usize
        ensures piece { result ≡ length self.now.piece.items }
        ensures few { result ≤ 65536 }
    {
        self.piece.len()
    }

    // Makes room for bytes.
    pub(crate) fn make_room(&mut self, bytes: usize) -> Result<(), NoMemory>
        requires few { bytes ≤ 65536 }
        ensures ok { OnOk result (bytes ≤ (state_of self.new.ears).room) }
        ensures kept { (state_of self.old.ears).room ≤ (state_of self.new.ears).room }
        ensures had { bytes ≤ (state_of self.old.ears).room → IsOk result }
        ensures err { OnErr result ((state_of self.new.ears).room ≡ (state_of self.old.ears).room) }
        ensures unread { framed_unread self.new ≡ framed_unread self.old }
        ensures layers { layers_heard ⟦<dyn Framer as Framer>⟧ self.new.ears ≡
            layers_heard ⟦<dyn Framer as Framer>⟧ self.old.ears }
        ensures sound { IsSound ⟦<dyn Framer as Framer>⟧ self.old.ears →
            IsSound ⟦<dyn Framer as Framer>⟧ self.new.ears }
    {
        self.ears.make_room(bytes)
    }

    // Asks the socket once for bytes.
    pub(crate) fn ask<N: Sockets>(
        &mut self,
        net: &mut N,
        socket: u32,
        until: u64,
    ) -> Result<RecvAnswer, NoMemory>
        requires wanting { IsWanting (framed_unread self.old) }
        requires may { may_receive (N.net net.old).trace socket ≡ true }
        requires stream { carries_stream (N.net net.old).trace socket ≡ true }
        requires spare { 1 ≤ (N.net net.old).spare }
        requires until { until < 2 ^ 63 }
        ensures taken_in { IsTakenIn N.Becomes net.old net.new (N.net net.old) (N.net net.new) socket until
            (framed_unread self.old) result (framed_unread self.new) }
        ensures memory { OnErr result ((state_of self.old.ears).room < most_of (framed_unread self.old)) }
        ensures room { IsRoomLeft (state_of self.old.ears).room result (state_of self.new.ears).room }
        ensures layers { layers_heard ⟦<dyn Framer as Framer>⟧ self.new.ears ≡
            layers_heard ⟦<dyn Framer as Framer>⟧ self.old.ears }
        ensures sound { IsSound ⟦<dyn Framer as Framer>⟧ self.old.ears →
            IsSound ⟦<dyn Framer as Framer>⟧ self.new.ears }
    {
        let most = self.piece.len().min(4_194_304 - self.ears.held());
        ask_for(net, socket, &mut self.ears, &mut self.piece, most, until)
    }

    // The next message of the bytes that came.
    pub(crate) fn receive(&mut self) -> Heard
        requires given { (state_of self.old.ears).index < 2 ^ 64 - 1 }
        requires sound { IsSound ⟦<dyn Framer as Framer>⟧ self.old.ears }
        ensures given_out { IsGivenOut (layers_heard ⟦<dyn Framer as Framer>⟧ self.old.ears) false
            (framed_unread self.old) result (framed_unread self.new) }
        ensures wanting { result ≡ Heard.Need → IsWanting (framed_unread self.new) }
        ensures layers { layers_heard ⟦<dyn Framer as Framer>⟧ self.new.ears ≡
            layers_heard ⟦<dyn Framer as Framer>⟧ self.old.ears }
        ensures sound { IsSound ⟦<dyn Framer as Framer>⟧ self.new.ears }
    {
        self.ears.next_message()
    }
}

// Asks once for so many bytes, for which it makes room before where there is less, and feeds those
// that come.
fn ask_for<N: Sockets>(
    net: &mut N,
    socket: u32,
    ears: &mut Ears<'_>,
    piece: &mut [u8],
    most: usize,
    until: u64,
) -> Result<RecvAnswer, NoMemory>
    requires may { may_receive (N.net net.old).trace socket ≡ true }
    requires stream { carries_stream (N.net net.old).trace socket ≡ true }
    requires some { 1 ≤ most }
    requires within { most ≤ length piece.old }
    requires fits { length (state_of ears.old).unread + most ≤ 4194304 }
    requires good { (state_of ears.old).bad ≡ None }
    requires spare { 1 ≤ (N.net net.old).spare }
    requires until { until < 2 ^ 63 }
    ensures asked { IsAsked N.Becomes net.old net.new (N.net net.old) (N.net net.new) socket most until
        (state_of ears.old).unread result (state_of ears.new).unread }
    ensures memory { OnErr result ((state_of ears.old).room < most) }
    ensures room { IsRoomLeft (state_of ears.old).room result (state_of ears.new).room }
    ensures index { (state_of ears.new).index ≡ (state_of ears.old).index }
    ensures good { (state_of ears.new).bad ≡ None }
    ensures layers { layers_heard ⟦<dyn Framer as Framer>⟧ ears.new ≡
        layers_heard ⟦<dyn Framer as Framer>⟧ ears.old }
    ensures sound { IsSound ⟦<dyn Framer as Framer>⟧ ears.old → IsSound ⟦<dyn Framer as Framer>⟧ ears.new }
    ensures piece { length piece.new ≡ length piece.old }
{
    ears.make_room(most)?;
    let answer = net.recv(socket, &mut piece[..most], until);
    if let RecvAnswer::Got { count, .. } = answer {
        match ears.feed(&piece[..count]) {
            Ok(()) => {}
            Err(FeedError::Bad(_)) => unreachable!(),
            Err(FeedError::NoMemory) => unreachable!(),
        }
    }
    Ok(answer)
}
