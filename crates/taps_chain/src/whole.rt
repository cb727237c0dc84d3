ghost use Rattle.std.specs.Prelude.{◌≡◌, ◌≢◌, ◌+◌, ◌-◌, ◌<◌, ◌≤◌, List, ℕ, [], false, length, drop, IfOk};
ghost use Rattle.taps_framer.specs.Scans.{IsRun};
ghost use Rattle.taps_framer.specs.Layers.{IsWholeFrame, IsFramer};
ghost use Rattle.taps_chain.specs.Chained.{chained, IsSpoken};
ghost use Rattle.taps_chain.specs.ChainLaws.{AreFramers};
ghost use Rattle.taps_chain.specs.Counts.{CountsHanded};
ghost use Rattle.taps_chain.specs.Layers.{layers_of};
ghost use Rattle.taps_chain.specs.Wholes.{IsOpened, IsWholeAbove, IsWhole};

use crate::Chain;
use crate::look::advance_watched;
use std::alloc::Global;
use std::marker::Brand;
use std::sync::ledger::{Blank, Ledger};
use taps_base::{Body, NoMemory};
use taps_framer::{Framer, Run, Steps, start_in, unwrap_in};

/// What bytes are that should be exactly one message.
#[derive(Debug, Drop)]
pub enum WholeAnswer {
    /// This message.
    Message(Body),
    /// None: the bytes of this layer, counted from 0, are not exactly one frame. The place is the
    /// layer's own bad place, the number of its bytes where its frame is unfinished, or the length of
    /// the frame where bytes are left over.
    Bad { layer: u8, place: u64 },
    /// Memory ran out.
    NoMemory,
}

// What bytes are that should be exactly one frame.
pub(crate) enum Opened {
    Body(Vec<u8>),
    Bad(u64),
    NoMemory,
}

impl<'a> Chain<'a> {
    /// The message whose bytes, at this index, these are: what `wrap` made is undone.
    pub fn whole(&self, index: u64, bytes: &[u8]) -> WholeAnswer
        ensures whole { IsWhole (layers_of ⟦<dyn Framer as Framer>⟧ self.now) index bytes.now result }
        ensures undone { (m : List ℕ) → IsSpoken (layers_of ⟦<dyn Framer as Framer>⟧ self.now) index m →
            bytes.now ≡ chained (layers_of ⟦<dyn Framer as Framer>⟧ self.now) index m →
            result ≢ WholeAnswer.NoMemory → result ≡ WholeAnswer.Message m }
    {
        self.vouch_each();
        whole_from::<Brand>(self, index, bytes, Blank::new(1))
    }
}

// The message of these bytes, with a count that nobody reads.
fn whole_from<L: Ledger>(chain: &Chain<'_>, index: u64, bytes: &[u8], blank: Blank) -> WholeAnswer
    requires framers { AreFramers (layers_of ⟦<dyn Framer as Framer>⟧ chain.now) }
    requires name { blank.name ≡ L.name }
    requires parts { blank.parts ≡ L.parts }
    requires some { 0 < blank.parts }
    ensures { IsWhole (layers_of ⟦<dyn Framer as Framer>⟧ chain.now) index bytes.now result }
{
    let mut steps: Steps<L> = Steps::none(blank);
    whole_of(chain, index, bytes, &mut steps)
}

fn whole_of<L: Ledger>(
    chain: &Chain<'_>,
    index: u64,
    bytes: &[u8],
    steps: &mut Steps<L>,
) -> WholeAnswer
    requires { AreFramers (layers_of ⟦<dyn Framer as Framer>⟧ chain.now) }
    ensures { IsWhole (layers_of ⟦<dyn Framer as Framer>⟧ chain.now) index bytes.now result }
{
    if chain.is_empty() {
        return match Body::from_slice(chain.allocator(), bytes) {
            Ok(body) => WholeAnswer::Message(body),
            Err(_) => WholeAnswer::NoMemory,
        };
    }
    match open(chain.allocator(), chain.at(0), index, bytes, false, steps) {
        Opened::Body(body) => whole_above(chain, 1, index, body, 0, steps),
        Opened::Bad(place) => WholeAnswer::Bad { layer: 0, place },
        Opened::NoMemory => WholeAnswer::NoMemory,
    }
}

/// The message of exactly these bytes through the layers from a depth on. The bytes of a watched
/// layer among these are counted.
pub(crate) fn whole_above<L: Ledger>(
    chain: &Chain<'_>,
    first: usize,
    index: u64,
    bytes: Vec<u8>,
    watch: u8,
    steps: &mut Steps<L>,
) -> WholeAnswer
    requires depth { first ≤ length (layers_of ⟦<dyn Framer as Framer>⟧ chain.now) }
    requires framers { AreFramers (layers_of ⟦<dyn Framer as Framer>⟧ chain.now) }
    ensures whole { IsWholeAbove (layers_of ⟦<dyn Framer as Framer>⟧ chain.now) first index bytes.items result }
    ensures uncounted { watch < first → steps.new ≡ steps.old }
    ensures counted { first ≤ watch → CountsHanded (drop first (layers_of ⟦<dyn Framer as Framer>⟧ chain.now))
        index bytes.items (watch - first) steps.old steps.new }
{
    let mut current = bytes;
    for depth in first..chain.len() {
        let framer = chain.at(depth);
        let watched = depth == watch as usize;
        match open(chain.allocator(), framer, index, &current, watched, steps) {
            Opened::Body(body) => current = body,
            Opened::Bad(place) => {
                return WholeAnswer::Bad {
                    layer: depth as u8,
                    place,
                };
            }
            Opened::NoMemory => return WholeAnswer::NoMemory,
        }
    }
    WholeAnswer::Message(Body::from_vec(current))
}

// The body of exactly one frame. The bytes that are looked at count where the layer is watched.
fn open<L: Ledger>(
    alloc: Global,
    framer: &Box<dyn Framer>,
    index: u64,
    bytes: &[u8],
    watched: bool,
    steps: &mut Steps<L>,
) -> Opened
    requires { IsFramer (layer framer.now) }
    ensures opened { IsOpened (layer framer.now) index bytes.now result }
    ensures uncounted { watched ≡ false → steps.new ≡ steps.old }
    ensures counted { steps.new ≤ steps.old + length bytes.now }
{
    let start = start_in(framer, index);
    let run = advance_watched(framer, index, start, bytes, watched, steps);
    opened_by(alloc, framer, index, bytes, run)
}

// The body of exactly one frame, from what is seen of it.
fn opened_by(alloc: Global, framer: &Box<dyn Framer>, index: u64, bytes: &[u8], run: Run) -> Opened
    requires framers { IsFramer (layer framer.now) }
    requires run { IsRun (layer framer.now) (scans framer.now) index [] bytes.now run }
    ensures { IsOpened (layer framer.now) index bytes.now result }
{
    match run {
        Run::More(_) => Opened::Bad(bytes.len() as u64),
        Run::Bad { place } => Opened::Bad(place as u64),
        Run::Whole { used } => {
            if used < bytes.len() {
                return Opened::Bad(used as u64);
            }
            open_frame(alloc, framer, index, bytes)
        }
    }
}

fn open_frame(alloc: Global, framer: &Box<dyn Framer>, index: u64, frame: &[u8]) -> Opened
    requires { IsWholeFrame (layer framer.now) index frame.now }
    ensures { IsOpened (layer framer.now) index frame.now result }
{
    match body_of(alloc, framer, index, frame) {
        Ok(body) => Opened::Body(body),
        Err(_) => Opened::NoMemory,
    }
}

// The body of a frame.
pub(crate) fn body_of(
    alloc: Global,
    framer: &Box<dyn Framer>,
    index: u64,
    frame: &[u8],
) -> Result<Vec<u8>, NoMemory>
    requires { IsWholeFrame (layer framer.now) index frame.now }
    ensures { IfOk result (λ body. body.items ≡ (layer framer.now).front index frame.now) }
{
    let mut body = Vec::new(alloc);
    unwrap_in(framer, index, frame, &mut body)?;
    Ok(body)
}
