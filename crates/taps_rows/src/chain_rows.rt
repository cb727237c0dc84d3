ghost use Rattle.std.specs.Prelude.{◌≡◌, ◌≤◌, ◌<◌, length, IfOk};
ghost use Rattle.taps_chain.specs.Hearings.{joined};
ghost use Rattle.taps_chain.specs.Layers.{layers_of};

use std::alloc::{AllocError, Global};
use std::process::Abort;
use std::test::Fail;
use taps_base::{Body, List, NoMemory};
use taps_chain::{Chain, Heard, WholeAnswer, WrapError, hear_pieces};
use taps_framer::Framer;
use taps_frames::{Len16, Netstring};

// A piece for each byte.
#[tactic(auto, using(taps_chain::proofs::Joined::joined_length))]
fn single_bytes(alloc: Global, stream: &[u8]) -> Result<List<Body>, NoMemory>
    requires { length stream.now ≤ 4194304 }
    ensures { IfOk result (λ pieces. length (joined pieces.items) ≤ 4194304) }
{
    let mut pieces = List::new(alloc);
    for place in 0..stream.len() {
        pieces.reserve(1)?;
        let body = Body::from_slice(alloc, &stream[place..place + 1])?;
        pieces.push(body).unwrap();
    }
    Ok(pieces)
}

fn one_layer(alloc: Global) -> Result<Vec<Box<dyn Framer>>, AllocError>
    ensures { IfOk result (λ shelf. length shelf.items ≡ 1) }
{
    let mut shelf: Vec<Box<dyn Framer>> = Vec::new(alloc);
    shelf.push(Box::new(alloc, Len16)?)?;
    Ok(shelf)
}

fn two_layers(alloc: Global) -> Result<Vec<Box<dyn Framer>>, AllocError>
    ensures { IfOk result (λ shelf. length shelf.items ≡ 2) }
{
    let mut shelf = one_layer(alloc)?;
    shelf.push(Box::new(alloc, Netstring)?)?;
    Ok(shelf)
}

#[test]
fn messages_are_wrapped(rt: HostRuntime) -> Result<(), Fail> {
    let shelf = two_layers(rt.alloc())?;
    let chain = Chain::new(rt.alloc(), &shelf, &[0, 1])?;
    is_wrapped(&rt, &chain)
}

fn is_wrapped(rt: &impl Abort, chain: &Chain<'_>) -> Result<(), Fail> {
    let bytes = chain.wrap(0, b"hi")?;
    assert_eq!(rt; bytes.as_slice(), b"\x00\x052:hi,".as_slice());
    assert!(rt;
        matches!(chain.whole(0, &bytes), WholeAnswer::Message(body) if body.bytes() == b"hi".as_slice())
    );
    Ok(())
}

#[test]
fn the_longest_body_fits(rt: HostRuntime) -> Result<(), Fail> {
    let shelf = one_layer(rt.alloc())?;
    let chain = Chain::new(rt.alloc(), &shelf, &[0])?;
    assert_eq!(rt; wrapped(rt.alloc(), &chain, 65_535)?, Ok(65_537));
    assert_eq!(rt;
        wrapped(rt.alloc(), &chain, 65_536)?,
        Err(WrapError::NotSpeakable(0))
    );
    Ok(())
}

#[test]
fn a_frame_of_a_frame_must_fit(rt: HostRuntime) -> Result<(), Fail> {
    let shelf = two_layers(rt.alloc())?;
    let chain = Chain::new(rt.alloc(), &shelf, &[0, 1])?;
    assert_eq!(rt;
        wrapped(rt.alloc(), &chain, 65_530)?,
        Err(WrapError::NotSpeakable(0))
    );
    Ok(())
}

// The length of the frame of a body of this length, or why there is none.
fn wrapped(
    alloc: Global,
    chain: &Chain<'_>,
    length: usize,
) -> Result<Result<usize, WrapError>, AllocError> {
    let body = vec![in alloc; b'x'; length]?;
    Ok(chain.wrap(0, &body).map(|frame| frame.len()))
}

#[test]
fn single_bytes_are_heard(rt: HostRuntime) -> Result<(), Fail> {
    let shelf = two_layers(rt.alloc())?;
    let chain = Chain::new(rt.alloc(), &shelf, &[0, 1])?;
    is_heard(&rt, rt.alloc(), chain)
}

// The bytes are heard, each in a piece of its own.
fn is_heard(rt: &impl Abort, alloc: Global, chain: Chain<'_>) -> Result<(), Fail>
    requires { 0 < length (layers_of ⟦<dyn Framer as Framer>⟧ chain) }
{
    let pieces = single_bytes(alloc, b"\x00\x052:hi,\x00\x052:")?;
    let mut sink = List::new(alloc);
    let hearing = hear_pieces(chain, &pieces, &mut sink);
    assert!(rt; matches!(hearing.end, Heard::Need));
    assert_eq!(rt; hearing.rest, 4);
    assert_eq!(rt; sink.len(), 1);
    assert!(rt; matches!(sink.get(0), Some(body) if body.bytes() == b"hi".as_slice()));
    Ok(())
}
