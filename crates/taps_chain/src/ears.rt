ghost use Rattle.std.specs.Prelude.{◌≡◌, ◌-◌, ◌+◌, ◌^◌, ◌<◌, ◌≤◌, List, ℕ, [], None, length, IfOk, OnOk, OnErr, IsOk};

use crate::look::Look;
use crate::next::{Found, next_in};
use crate::stream::Stream;
use crate::{BadAt, Chain, FeedError, Heard};
use std::alloc::Global;
use std::marker::Brand;
use std::sync::ledger::{Blank, Ledger};
use taps_base::NoMemory;
use taps_framer::{Framer, Seen, Steps};

/// Hears the messages of a stream through a chain, and looks at each byte of it once.
///
/// Contracts see the layers of the chain, the unread bytes, which were fed and not given out, how many
/// of them are scanned, the index of the next message, the Bad that was answered, if any, and the room
/// for more bytes.
#[derive(Drop)]
pub struct Ears<'a> {
    chain: Chain<'a>,
    first: &'a Box<dyn Framer>,
    stream: Stream,
    seen: Seen,
    ghost some: { 0 < length chain.framers.items },
}

impl<'a> Ears<'a> {
    ghost use Rattle.taps_chain.specs.Layers.{layers_of};
    ghost use Rattle.taps_chain.specs.Ears.{layers_heard, state_of, IsSound};
    ghost use Rattle.taps_chain.specs.Heard.{Ending, IsHeard};
    ghost use Rattle.taps_chain.specs.Nexts.{IsNext, IsNextOfGood, ScansOn, IsFirstOf, IsFed};
    ghost use Rattle.taps_chain.specs.Counts.{Counts, CountsIn};
    ghost use Rattle.taps_chain.specs.Founds.{IsFound};

    /// Ears that nothing was fed.
    pub fn new(alloc: Global, chain: Chain<'a>) -> Result<Ears<'a>, NoMemory>
        requires { 0 < length (layers_of ⟦<dyn Framer as Framer>⟧ chain) }
        ensures layers { IfOk result (λ ears. layers_heard ⟦<dyn Framer as Framer>⟧ ears ≡
            layers_of ⟦<dyn Framer as Framer>⟧ chain.entry) }
        ensures empty { IfOk result (λ ears. state_of ears ≡
            record { unread = []; index = 0; bad = None; room = 0; scanned = 0 }) }
        ensures sound { IfOk result (λ ears. IsSound ⟦<dyn Framer as Framer>⟧ ears) }
    {
        chain.vouch_each();
        let first = chain.at(0);
        let look = Look::start(first, 0);
        Ok(Ears {
            chain,
            first,
            stream: Stream::new(alloc),
            seen: look.seen,
        })
    }

    /// Makes room for bytes that are to be fed.
    pub fn make_room(&mut self, bytes: usize) -> Result<(), NoMemory>
        ensures ok { OnOk result (bytes ≤ (state_of self.new).room) }
        ensures kept { (state_of self.old).room ≤ (state_of self.new).room }
        ensures had { bytes ≤ (state_of self.old).room → IsOk result }
        ensures others { state_of self.new ≡ record (state_of self.old) { room = (state_of self.new).room } }
        ensures err { OnErr result (state_of self.new ≡ state_of self.old) }
        ensures layers { layers_heard ⟦<dyn Framer as Framer>⟧ self.new ≡
            layers_heard ⟦<dyn Framer as Framer>⟧ self.old }
        ensures sound { IsSound ⟦<dyn Framer as Framer>⟧ self.old → IsSound ⟦<dyn Framer as Framer>⟧ self.new }
    {
        self.stream.make_room(bytes)
    }

    /// The number of unread bytes.
    pub fn held(&self) -> usize
        ensures { result ≡ length (state_of self.now).unread }
    {
        self.stream.held()
    }

    /// The number of unread bytes that layer 0 has looked at.
    pub fn scanned(&self) -> usize
        ensures { result ≡ (state_of self.now).scanned }
    {
        self.stream.scanned()
    }

    /// The index of the next message.
    pub fn index(&self) -> u64
        ensures { result ≡ (state_of self.now).index }
    {
        self.stream.index()
    }

    /// Appends a piece to the unread bytes. After a Bad it is refused with that Bad.
    pub fn feed(&mut self, piece: &[u8]) -> Result<(), FeedError>
        requires { length (state_of self.old).unread + length piece.now ≤ 4194304 }
        ensures fed { IsFed (state_of self.old) piece.now result (state_of self.new) }
        ensures layers { layers_heard ⟦<dyn Framer as Framer>⟧ self.new ≡
            layers_heard ⟦<dyn Framer as Framer>⟧ self.old }
        ensures sound { IsSound ⟦<dyn Framer as Framer>⟧ self.old → IsSound ⟦<dyn Framer as Framer>⟧ self.new }
    {
        self.stream.feed(piece)
    }

    /// The first message of the unread bytes, which are then taken out. After a Bad it is that Bad for
    /// good.
    pub fn next_message(&mut self) -> Heard
        requires index { (state_of self.old).index < 2 ^ 64 - 1 }
        requires sound { IsSound ⟦<dyn Framer as Framer>⟧ self.old }
        ensures next { IsNext (layers_heard ⟦<dyn Framer as Framer>⟧ self.old)
            (state_of self.old) result (state_of self.new) }
        ensures first { (state_of self.old).bad ≡ None → (ms : List (List ℕ)) (e : Ending) (r : List ℕ) →
            IsHeard (layers_heard ⟦<dyn Framer as Framer>⟧ self.old)
            (state_of self.old).index (state_of self.old).unread ms e r →
            IsFirstOf ms e result }
        ensures few { result ≡ Heard.Need → length (state_of self.new).unread < 4194304 }
        ensures layers { layers_heard ⟦<dyn Framer as Framer>⟧ self.new ≡
            layers_heard ⟦<dyn Framer as Framer>⟧ self.old }
        ensures sound { IsSound ⟦<dyn Framer as Framer>⟧ self.new }
    {
        self.next_from::<Brand>(Blank::new(1))
    }

    /// The first message of the unread bytes, as `next_message` gives it. The bytes at which the
    /// watched layer looks are counted: of layer 0 each byte of the stream once, of a layer above no
    /// more than are handed to it.
    pub fn next_message_counted<L: Ledger>(&mut self, watch: u8, steps: &mut Steps<L>) -> Heard
        requires index { (state_of self.old).index < 2 ^ 64 - 1 }
        requires watch { watch < length (layers_heard ⟦<dyn Framer as Framer>⟧ self.old) }
        requires sound { IsSound ⟦<dyn Framer as Framer>⟧ self.old }
        ensures next { IsNext (layers_heard ⟦<dyn Framer as Framer>⟧ self.old)
            (state_of self.old) result (state_of self.new) }
        ensures counted { Counts (layers_heard ⟦<dyn Framer as Framer>⟧ self.old)
            (state_of self.old) (state_of self.new) watch steps.old steps.new }
        ensures first { (state_of self.old).bad ≡ None → (ms : List (List ℕ)) (e : Ending) (r : List ℕ) →
            IsHeard (layers_heard ⟦<dyn Framer as Framer>⟧ self.old)
            (state_of self.old).index (state_of self.old).unread ms e r →
            IsFirstOf ms e result }
        ensures few { result ≡ Heard.Need → length (state_of self.new).unread < 4194304 }
        ensures layers { layers_heard ⟦<dyn Framer as Framer>⟧ self.new ≡
            layers_heard ⟦<dyn Framer as Framer>⟧ self.old }
        ensures sound { IsSound ⟦<dyn Framer as Framer>⟧ self.new }
    {
        if let Some(bad) = self.stream.bad() {
            return Heard::Bad(bad);
        }
        self.hear(watch, steps)
    }

    // The same with a count that nobody reads.
    fn next_from<L: Ledger>(&mut self, blank: Blank) -> Heard
        requires index { (state_of self.old).index < 2 ^ 64 - 1 }
        requires sound { IsSound ⟦<dyn Framer as Framer>⟧ self.old }
        requires name { blank.name ≡ L.name }
        requires parts { blank.parts ≡ L.parts }
        requires some { 0 < blank.parts }
        ensures next { IsNext (layers_heard ⟦<dyn Framer as Framer>⟧ self.old)
            (state_of self.old) result (state_of self.new) }
        ensures first { (state_of self.old).bad ≡ None → (ms : List (List ℕ)) (e : Ending) (r : List ℕ) →
            IsHeard (layers_heard ⟦<dyn Framer as Framer>⟧ self.old)
            (state_of self.old).index (state_of self.old).unread ms e r →
            IsFirstOf ms e result }
        ensures few { result ≡ Heard.Need → length (state_of self.new).unread < 4194304 }
        ensures layers { layers_heard ⟦<dyn Framer as Framer>⟧ self.new ≡
            layers_heard ⟦<dyn Framer as Framer>⟧ self.old }
        ensures sound { IsSound ⟦<dyn Framer as Framer>⟧ self.new }
    {
        let mut steps: Steps<L> = Steps::none(blank);
        self.next_message_counted(0, &mut steps)
    }

    // The first message of a stream that is not bad.
    fn hear<L: Ledger>(&mut self, watch: u8, steps: &mut Steps<L>) -> Heard
        requires index { (state_of self.old).index < 2 ^ 64 - 1 }
        requires sound { IsSound ⟦<dyn Framer as Framer>⟧ self.old }
        ensures next { IsNextOfGood (layers_heard ⟦<dyn Framer as Framer>⟧ self.old)
            (state_of self.old) result (state_of self.new) }
        ensures counted { Counts (layers_heard ⟦<dyn Framer as Framer>⟧ self.old)
            (state_of self.old) (state_of self.new) watch steps.old steps.new }
        ensures layers { layers_heard ⟦<dyn Framer as Framer>⟧ self.new ≡
            layers_heard ⟦<dyn Framer as Framer>⟧ self.old }
        ensures sound { IsSound ⟦<dyn Framer as Framer>⟧ self.new }
    {
        let found = self.find(watch, steps);
        match found {
            Found::Message(body) => {
                self.stream.take_out();
                self.seen = Look::start(self.first, self.stream.index()).seen;
                Heard::Message(body)
            }
            Found::Need => Heard::Need,
            Found::Bad { layer, place } => {
                let bad = BadAt {
                    message: self.stream.index(),
                    layer,
                    place,
                };
                self.stream.fail(bad);
                Heard::Bad(bad)
            }
            Found::NoMemory => Heard::NoMemory,
        }
    }

    // What stands first in the unread bytes, which layer 0 scans as far as it needs.
    fn find<L: Ledger>(&mut self, watch: u8, steps: &mut Steps<L>) -> Found
        requires index { (state_of self.old).index < 2 ^ 64 - 1 }
        requires sound { IsSound ⟦<dyn Framer as Framer>⟧ self.old }
        ensures found { IsFound (layers_heard ⟦<dyn Framer as Framer>⟧ self.old)
            (state_of self.old).index (state_of self.old).unread (state_of self.new).scanned result }
        ensures others { state_of self.new ≡ record (state_of self.old) { scanned = (state_of self.new).scanned } }
        ensures scans { ScansOn (state_of self.old) (state_of self.new) }
        ensures counted { CountsIn (layers_heard ⟦<dyn Framer as Framer>⟧ self.old)
            (state_of self.old).index (state_of self.old).unread watch
            (state_of self.old).scanned (state_of self.new).scanned steps.old steps.new }
        ensures layers { layers_heard ⟦<dyn Framer as Framer>⟧ self.new ≡
            layers_heard ⟦<dyn Framer as Framer>⟧ self.old }
        ensures sound { IsSound ⟦<dyn Framer as Framer>⟧ self.new }
    {
        let mut look = Look {
            scanned: self.stream.scanned(),
            seen: self.seen,
        };
        let found = next_in(
            &self.chain,
            self.first,
            self.stream.index(),
            self.stream.unread(),
            &mut look,
            watch,
            steps,
        );
        self.stream.scan_to(look.scanned);
        self.seen = look.seen;
        found
    }
}
