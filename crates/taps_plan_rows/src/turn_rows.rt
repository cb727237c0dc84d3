use std::alloc::Global;
use std::process::Abort;
use std::test::Fail;
use taps_endpoint::Family;
use taps_rank::address_order;

// Families of addresses, each with the places of the addresses in the order in which they are tried (RFC 8305
// section 4).
static ORDERS: [(&[Family], &[u64]); 4] = [
    (&[], &[]),
    (
        &[Family::Inet4, Family::Inet6, Family::Inet6, Family::Inet4],
        &[0, 1, 3, 2],
    ),
    (&[Family::Inet6, Family::Inet6, Family::Inet4], &[0, 2, 1]),
    (
        &[Family::Unix, Family::Inet4, Family::Inet6, Family::Unix],
        &[0, 1, 2, 3],
    ),
];

fn holds<R: Abort>(rt: &R, alloc: Global, families: &[Family], places: &[u64]) -> Result<(), Fail> {
    let order = address_order(alloc, families)?;
    assert!(rt; order.as_slice() == places, "{places:?}");
    Ok(())
}

#[test]
fn families_take_turns(rt: HostRuntime) -> Result<(), Fail> {
    for (families, places) in &ORDERS {
        holds(&rt, rt.alloc(), families, places)?;
    }
    Ok(())
}
