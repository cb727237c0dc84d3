// Ears that are fed by hand, and what is counted of their looks.
ghost use Rattle.std.specs.Prelude.{◌≡◌, ◌-◌, ◌^◌, ◌<◌, length};
ghost use Rattle.taps_chain.specs.Ears.{layers_heard, state_of, IsSound};

use crate::Pair;
use std::marker::Brand;
use std::process::Abort;
use std::sync::ledger::{Blank, Ledger};
use std::test::Fail;
use taps_chain::{BadAt, Chain, Ears, FeedError, Heard};
use taps_framer::{Framer, Steps};

const BAD: BadAt = BadAt {
    message: 1,
    layer: 0,
    place: 1,
};

#[test]
fn fed_by_hand(rt: HostRuntime) -> Result<(), Fail> {
    let alloc = rt.alloc();
    let mut shelf: Vec<Box<dyn Framer>> = Vec::new(alloc);
    shelf.push(Box::new(alloc, Pair)?)?;
    assert_eq!(rt; shelf.len(), 1);
    let mut ears = Ears::new(alloc, Chain::new(alloc, &shelf, &[0])?)?;
    ears.make_room(3)?;
    assert!(rt; ears.feed(&[7, 248, 9]).is_ok());
    is_seven(&rt, ears.next_message());
    assert!(rt; matches!(ears.next_message(), Heard::Need));
    assert_eq!(rt; (ears.held(), ears.scanned(), ears.index()), (1, 1, 1));
    assert!(rt; ears.feed(&[9]).is_ok());
    assert_eq!(rt; ears.scanned(), 1);
    is_bad(&rt, ears.next_message());
    assert_eq!(rt; ears.held(), 2);
    assert_eq!(rt; ears.feed(&[1]), Err(FeedError::Bad(BAD)));
    is_bad(&rt, ears.next_message());
    assert_eq!(rt; (ears.held(), ears.scanned(), ears.index()), (2, 2, 1));
    Ok(())
}

fn is_seven(rt: &impl Abort, heard: Heard) {
    match &heard {
        Heard::Message(body) => assert_eq!(rt; body.bytes(), [7].as_slice()),
        _ => assert!(rt; false),
    }
}

fn is_bad(rt: &impl Abort, heard: Heard) {
    match &heard {
        Heard::Bad(at) => assert_eq!(rt; *at, BAD),
        _ => assert!(rt; false),
    }
}

#[test]
fn counted_by_hand(rt: HostRuntime) -> Result<(), Fail> {
    let alloc = rt.alloc();
    let mut shelf: Vec<Box<dyn Framer>> = Vec::new(alloc);
    shelf.push(Box::new(alloc, Pair)?)?;
    assert_eq!(rt; shelf.len(), 1);
    let mut ears = Ears::new(alloc, Chain::new(alloc, &shelf, &[0])?)?;
    assert!(rt; ears.feed(&[7, 248]).is_ok());
    is_seven(&rt, counted::<Brand>(&mut ears, Blank::new(1)));
    Ok(())
}

// The next message, with its steps counted.
fn counted<L: Ledger>(ears: &mut Ears<'_>, blank: Blank) -> Heard
    requires index { (state_of ears.old).index < 2 ^ 64 - 1 }
    requires some { 0 < length (layers_heard ⟦<dyn Framer as Framer>⟧ ears.old) }
    requires sound { IsSound ⟦<dyn Framer as Framer>⟧ ears.old }
    requires name { blank.name ≡ L.name }
    requires parts { blank.parts ≡ L.parts }
    requires one { 0 < blank.parts }
{
    let mut steps: Steps<L> = Steps::none(blank);
    ears.next_message_counted(0, &mut steps)
}
