// Packets through a chain by themselves, as docs/FRAMERS.md shows them.
ghost use Rattle.std.specs.Prelude.{◌≡◌, length};

use crate::Packet;
use std::test::Fail;
use taps_base::List;
use taps_chain::{BadAt, Chain, Heard, WrapError, hear_bytes};
use taps_framer::Framer;

#[test]
fn a_packet_there_and_back(rt: HostRuntime) -> Result<(), Fail> {
    let alloc = rt.alloc();
    let mut shelf: Vec<Box<dyn Framer>> = Vec::new(alloc);
    shelf.push(Box::new(alloc, Packet)?)?;
    assert_eq!(rt; shelf.len(), 1);
    let chain = Chain::new(alloc, &shelf, &[0])?;
    assert_eq!(rt;
        chain.wrap(0, b"hi").err(),
        Some(WrapError::NotSpeakable(0))
    );
    let mut bytes = chain.wrap(0, &[7; 187])?;
    bytes.push(0x48)?;
    assert_eq!(rt; bytes.len(), 189);
    let mut sink = List::new(alloc);
    let hearing = hear_bytes(chain, &bytes, 100, &mut sink);
    assert_eq!(rt; sink.len(), 1);
    let bad = BadAt {
        message: 1,
        layer: 0,
        place: 0,
    };
    assert!(rt; matches!(hearing.end, Heard::Bad(at) if at == bad));
    Ok(())
}
