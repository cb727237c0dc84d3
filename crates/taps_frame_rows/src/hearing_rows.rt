// Bytes that are heard in pieces of each size, and in pieces cut at each place.
ghost use Rattle.std.specs.Prelude.{◌≡◌, ◌≤◌, ◌<◌, ◌++◌, ◌∷◌, [], length, IfOk, OnOk};
ghost use Rattle.taps_chain.specs.Hearings.{joined};
ghost use Rattle.taps_chain.specs.Layers.{layers_of};

use crate::{Pair, Short};
use std::alloc::Global;
use std::process::Abort;
use std::test::Fail;
use taps_base::{Body, List, NoMemory};
use taps_chain::{BadAt, Chain, Heard, Hearing, WholeAnswer, WrapError, hear_bytes, hear_pieces};
use taps_framer::Framer;

// The number of bytes of each piece.
static PIECES: [usize; 4] = [1, 7, 4_096, 65_536];

// Bytes through a length byte over pairs, in which the bodies 7 and 9 are heard.
struct Row {
    bytes: &'static [u8],
    bad: Option<BadAt>,
    rest: u64,
}

const BAD: BadAt = BadAt {
    message: 2,
    layer: 1,
    place: 1,
};

static ROWS: [Row; 3] = [
    Row {
        bytes: &[2, 7, 248, 2, 9, 246, 2, 5],
        bad: None,
        rest: 2,
    },
    Row {
        bytes: &[2, 7, 248, 2, 9, 246],
        bad: None,
        rest: 0,
    },
    Row {
        bytes: &[2, 7, 248, 2, 9, 246, 2, 7, 7, 1],
        bad: Some(BAD),
        rest: 4,
    },
];

/// A length byte over pairs.
fn shelf_of_two(alloc: Global) -> Result<Vec<Box<dyn Framer>>, NoMemory>
    ensures { IfOk result (λ shelf. length shelf.items ≡ 2) }
{
    let mut shelf: Vec<Box<dyn Framer>> = Vec::new(alloc);
    shelf.push(Box::new(alloc, Short)?)?;
    shelf.push(Box::new(alloc, Pair)?)?;
    Ok(shelf)
}

fn is_as(rt: &impl Abort, row: &Row, hearing: &Hearing, sink: &List<Body>) {
    match &hearing.end {
        Heard::Need => assert_eq!(rt; row.bad, None),
        Heard::Bad(at) => assert_eq!(rt; row.bad, Some(*at)),
        _ => assert!(rt; false),
    }
    assert_eq!(rt; hearing.rest, row.rest);
    let bodies = sink.as_slice();
    assert_eq!(rt; bodies.len(), 2);
    assert_eq!(rt; bodies[0].bytes(), [7].as_slice());
    assert_eq!(rt; bodies[1].bytes(), [9].as_slice());
}

// Hears the row in pieces of each size.
fn is_heard(rt: &impl Abort, alloc: Global, chain: &Chain<'_>, row: &Row) -> Result<(), Fail>
    requires some { 0 < length (layers_of ⟦<dyn Framer as Framer>⟧ chain.now) }
    requires few { length row.now.bytes.now ≤ 4194304 }
{
    for piece in &PIECES {
        let mut sink = List::new(alloc);
        let copy = chain.copy()?;
        let hearing = hear_bytes(copy, row.bytes, (*piece).max(1), &mut sink);
        is_as(rt, row, &hearing, &sink);
    }
    Ok(())
}

#[test]
fn pieces_of_each_size(rt: HostRuntime) -> Result<(), Fail> {
    let alloc = rt.alloc();
    let shelf = shelf_of_two(alloc)?;
    let chain = Chain::new(alloc, &shelf, &[0, 1])?;
    for row in &ROWS {
        assert!(rt; row.bytes.len() <= 100);
        is_heard(&rt, alloc, &chain, row)?;
    }
    Ok(())
}

// Hears the row, cut behind byte k where bit k of `cuts` is set.
fn is_heard_cut(
    rt: &impl Abort,
    alloc: Global,
    chain: &Chain<'_>,
    row: &Row,
    cuts: u32,
) -> Result<(), Fail>
    requires some { 0 < length (layers_of ⟦<dyn Framer as Framer>⟧ chain.now) }
    requires few { length row.now.bytes.now ≤ 4194304 }
{
    let pieces = cut(alloc, row.bytes, cuts)?;
    let mut sink = List::new(alloc);
    let hearing = hear_pieces(chain.copy()?, &pieces, &mut sink);
    is_as(rt, row, &hearing, &sink);
    Ok(())
}

#[test]
fn any_cutting(rt: HostRuntime) -> Result<(), Fail> {
    let alloc = rt.alloc();
    let shelf = shelf_of_two(alloc)?;
    let chain = Chain::new(alloc, &shelf, &[0, 1])?;
    for row in &ROWS {
        assert!(rt; row.bytes.len() <= 100);
        for cuts in 0..512 {
            is_heard_cut(&rt, alloc, &chain, row, cuts)?;
        }
    }
    Ok(())
}

#[tactic(auto, using(taps_chain::proofs::Joined::joined_length))]
fn cut(alloc: Global, stream: &[u8], cuts: u32) -> Result<List<Body>, NoMemory>
    requires { length stream.now ≤ 4194304 }
    ensures { IfOk result (λ pieces. length (joined pieces.items) ≤ 4194304) }
{
    let mut pieces = List::new(alloc);
    let mut from = 0;
    let mut left = cuts;
    for place in 1..stream.len() {
        let goes_on = left % 2 == 0;
        left /= 2;
        if goes_on {
            continue;
        }
        add(alloc, &mut pieces, &stream[from..place])?;
        from = place;
    }
    add(alloc, &mut pieces, &stream[from..])?;
    Ok(pieces)
}

fn add(alloc: Global, pieces: &mut List<Body>, piece: &[u8]) -> Result<(), NoMemory>
    ensures { OnOk result (pieces.new.items ≡ pieces.old.items ++ piece.now ∷ []) }
{
    pieces.reserve(1)?;
    pieces.add(Body::from_slice(alloc, piece)?);
    Ok(())
}

// Bytes that are not exactly one message, the layer at fault, and the place there.
static FAULTS: [(&[u8], u8, u64); 6] = [
    (&[2, 7], 0, 2),
    (&[2, 7, 248, 9], 0, 3),
    (&[0], 1, 0),
    (&[1, 7], 1, 1),
    (&[2, 7, 7], 1, 1),
    (&[3, 7, 248, 9], 1, 2),
];

fn is_faulty(rt: &impl Abort, chain: &Chain<'_>, fault: &(&[u8], u8, u64)) {
    match chain.whole(0, fault.0) {
        WholeAnswer::Bad { layer, place } => assert!(rt; layer == fault.1 && place == fault.2),
        _ => assert!(rt; false),
    }
}

#[test]
fn one_message(rt: HostRuntime) -> Result<(), Fail> {
    let alloc = rt.alloc();
    let shelf = shelf_of_two(alloc)?;
    let chain = Chain::new(alloc, &shelf, &[0, 1])?;
    let bytes = chain.wrap(0, &[7]).ok().ok_or("wrap")?;
    assert_eq!(rt; bytes.as_slice(), [2, 7, 248].as_slice());
    assert!(rt;
        matches!(chain.whole(0, &bytes), WholeAnswer::Message(body) if body.bytes() == [7].as_slice())
    );
    let refused = chain.wrap(0, &[7, 8]).err();
    assert_eq!(rt; refused, Some(WrapError::NotSpeakable(1)));
    for fault in &FAULTS {
        is_faulty(&rt, &chain, fault);
    }
    Ok(())
}

#[test]
fn a_chain_of_eight(rt: HostRuntime) -> Result<(), Fail> {
    let alloc = rt.alloc();
    let shelf = shelf_of_two(alloc)?;
    let chain = Chain::new(alloc, &shelf, &[0; 8])?;
    let bytes = chain.wrap(0, &[9]).ok().ok_or("wrap")?;
    assert_eq!(rt; bytes.as_slice(), [8, 7, 6, 5, 4, 3, 2, 1, 9].as_slice());
    assert!(rt;
        matches!(chain.whole(0, &bytes), WholeAnswer::Message(body) if body.bytes() == [9].as_slice())
    );
    Ok(())
}
