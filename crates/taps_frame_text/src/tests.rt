use crate::{frame_text, unframe_text};
use std::test::Fail;
use taps_base::Body;
use taps_chain::Chain;
use taps_framer::Framer;

#[test]
fn no_layer_frames_nothing(rt: HostRuntime) -> Result<(), Fail> {
    let alloc = rt.alloc();
    let shelf: Vec<Box<dyn Framer>> = Vec::new(alloc);
    let chain = Chain::new(alloc, &shelf, &[])?;
    let body = Body::from_slice(alloc, b"hi")?;
    let empty = Body::from_slice(alloc, b"")?;
    let framed = frame_text(alloc, &chain, &[&body, &empty])?;
    assert_eq!(rt; framed.text.as_slice(), b"6869\n-\n".as_slice());
    assert!(rt; framed.whole);
    Ok(())
}

#[test]
fn through_no_layer_all_is_one_message(rt: HostRuntime) -> Result<(), Fail> {
    let alloc = rt.alloc();
    let shelf: Vec<Box<dyn Framer>> = Vec::new(alloc);
    let chain = Chain::new(alloc, &shelf, &[])?;
    let framed = unframe_text(alloc, chain, b"hi\xff", 1)?;
    assert_eq!(rt;
        framed.text.as_slice(),
        b"message 0 6869ff\nrest 0\n".as_slice()
    );
    assert!(rt; framed.whole);
    Ok(())
}

#[test]
fn no_bytes_are_one_message(rt: HostRuntime) -> Result<(), Fail> {
    let alloc = rt.alloc();
    let shelf: Vec<Box<dyn Framer>> = Vec::new(alloc);
    let chain = Chain::new(alloc, &shelf, &[])?;
    let framed = unframe_text(alloc, chain, b"", 1)?;
    assert_eq!(rt; framed.text.as_slice(), b"message 0 -\nrest 0\n".as_slice());
    assert!(rt; framed.whole);
    Ok(())
}
