ghost use Rattle.std.specs.Prelude.{◌≡◌, ◌<◌, ◌≤◌, length, take, slice_get};
ghost use Rattle.taps_framer.specs.Layers.{IsWholeFrame};
ghost use Rattle.taps_chain.specs.Layers.{layers_of};
ghost use Rattle.taps_chain.specs.ChainLaws.{AreFramers};
ghost use Rattle.taps_chain.specs.Counts.{CountsHanded, CountsIn};
ghost use Rattle.taps_chain.specs.Founds.{IsFound};
ghost use Rattle.taps_chain.specs.Looks.{HasLooked, LooksOn};

use crate::look::Look;
use crate::whole::{body_of, whole_above};
use crate::{Chain, WholeAnswer};
use std::marker::Brand;
use std::sync::ledger::{Blank, Ledger};
use taps_base::Body;
use taps_framer::{Framer, Seen, Steps};

/// What stands first in unread bytes.
pub(crate) enum Found {
    /// A message, in the bytes that layer 0 scanned.
    Message(Body),
    /// The beginning of a frame of layer 0.
    Need,
    /// Bytes that are bad at a layer.
    Bad { layer: u8, place: u64 },
    /// Memory ran out.
    NoMemory,
}

/// What stands first in unread bytes, at which layer 0 looks on from where it stopped. The bytes of
/// the watched layer are counted.
#[inline(always)]
pub(crate) fn next_in<L: Ledger>(
    chain: &Chain<'_>,
    first: &Box<dyn Framer>,
    index: u64,
    unread: &[u8],
    look: &mut Look,
    watch: u8,
    steps: &mut Steps<L>,
) -> Found
    requires first { slice_get (layers_of ⟦<dyn Framer as Framer>⟧ chain.now) 0 ≡ Some (layer first.now) }
    requires framers { AreFramers (layers_of ⟦<dyn Framer as Framer>⟧ chain.now) }
    requires looked { HasLooked (layer first.now) (scans first.now) index unread.now look.old }
    ensures found { IsFound (layers_of ⟦<dyn Framer as Framer>⟧ chain.now) index unread.now
        look.new.scanned result }
    ensures looks { LooksOn (layer first.now) (scans first.now) index unread.now look.old look.new }
    ensures counted { CountsIn (layers_of ⟦<dyn Framer as Framer>⟧ chain.now) index unread.now watch
        look.old.scanned look.new.scanned steps.old steps.new }
{
    look.look_on(first, index, unread, watch == 0, steps);
    match look.seen {
        Seen::More(_) => Found::Need,
        Seen::Whole => message_in(chain, first, index, unread, look.scanned, watch, steps),
        Seen::Bad => Found::Bad {
            layer: 0,
            place: (look.scanned - 1) as u64,
        },
    }
}

// The message in the frame of layer 0 that the first bytes are.
fn message_in<L: Ledger>(
    chain: &Chain<'_>,
    first: &Box<dyn Framer>,
    index: u64,
    unread: &[u8],
    used: usize,
    watch: u8,
    steps: &mut Steps<L>,
) -> Found
    requires first { slice_get (layers_of ⟦<dyn Framer as Framer>⟧ chain.now) 0 ≡ Some (layer first.now) }
    requires framers { AreFramers (layers_of ⟦<dyn Framer as Framer>⟧ chain.now) }
    requires within { used ≤ length unread.now }
    requires whole { IsWholeFrame (layer first.now) index (take used unread.now) }
    ensures found { IsFound (layers_of ⟦<dyn Framer as Framer>⟧ chain.now) index unread.now used result }
    ensures uncounted { watch ≡ 0 → steps.new ≡ steps.old }
    ensures counted { 0 < watch → CountsHanded (layers_of ⟦<dyn Framer as Framer>⟧ chain.now) index
        (take used unread.now) watch steps.old steps.new }
{
    let body = match body_of(chain.allocator(), first, index, &unread[..used]) {
        Ok(body) => body,
        Err(_) => return Found::NoMemory,
    };
    match whole_above(chain, 1, index, body, watch, steps) {
        WholeAnswer::Message(body) => Found::Message(body),
        WholeAnswer::Bad { layer, place } => Found::Bad { layer, place },
        WholeAnswer::NoMemory => Found::NoMemory,
    }
}

/// What stands first in unread bytes, with no count.
#[inline(always)]
pub(crate) fn next_uncounted(
    chain: &Chain<'_>,
    first: &Box<dyn Framer>,
    index: u64,
    unread: &[u8],
    look: &mut Look,
) -> Found
    requires first { slice_get (layers_of ⟦<dyn Framer as Framer>⟧ chain.now) 0 ≡ Some (layer first.now) }
    requires framers { AreFramers (layers_of ⟦<dyn Framer as Framer>⟧ chain.now) }
    requires looked { HasLooked (layer first.now) (scans first.now) index unread.now look.old }
    ensures found { IsFound (layers_of ⟦<dyn Framer as Framer>⟧ chain.now) index unread.now
        look.new.scanned result }
    ensures looks { LooksOn (layer first.now) (scans first.now) index unread.now look.old look.new }
{
    next_from::<Brand>(chain, first, index, unread, look, Blank::new(1))
}

// The same with a count that nobody reads.
#[inline(always)]
fn next_from<L: Ledger>(
    chain: &Chain<'_>,
    first: &Box<dyn Framer>,
    index: u64,
    unread: &[u8],
    look: &mut Look,
    blank: Blank,
) -> Found
    requires first { slice_get (layers_of ⟦<dyn Framer as Framer>⟧ chain.now) 0 ≡ Some (layer first.now) }
    requires framers { AreFramers (layers_of ⟦<dyn Framer as Framer>⟧ chain.now) }
    requires looked { HasLooked (layer first.now) (scans first.now) index unread.now look.old }
    requires name { blank.name ≡ L.name }
    requires parts { blank.parts ≡ L.parts }
    requires some { 0 < blank.parts }
    ensures found { IsFound (layers_of ⟦<dyn Framer as Framer>⟧ chain.now) index unread.now
        look.new.scanned result }
    ensures looks { LooksOn (layer first.now) (scans first.now) index unread.now look.old look.new }
{
    let mut steps: Steps<L> = Steps::none(blank);
    next_in(chain, first, index, unread, look, 0, &mut steps)
}
