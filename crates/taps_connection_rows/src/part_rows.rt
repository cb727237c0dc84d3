use crate::made::make_body;
use std::process::Abort;
use std::test::Fail;
use taps_base::Body;
use taps_message::parts;

// The length of a body, the most bytes of a part, and the lengths of its parts.
static ROWS: [(usize, u64, &[usize]); 12] = [
    (0, 1, &[0]),
    (0, 4, &[0]),
    (1, 1, &[1]),
    (1, 4, &[1]),
    (2, 1, &[1, 1]),
    (3, 4, &[3]),
    (4, 4, &[4]),
    (5, 4, &[4, 1]),
    (8, 4, &[4, 4]),
    (9, 4, &[4, 4, 1]),
    (300, 100, &[100, 100, 100]),
    (300, 18446744073709551615, &[300]),
];

// Goes through the parts: each is as long as is listed, the last one alone is called so, and each begins where the one
// before it ended.
fn go_through(rt: &impl Abort, body: &Body, max: u64, lengths: &[usize]) {
    assert!(rt; max >= 1);
    let mut rest = body.bytes();
    let mut left = lengths;
    for part in parts(body, max) {
        assert!(rt; rest.starts_with(part.bytes));
        assert!(rt; part.bytes.len() <= rest.len());
        rest = &rest[part.bytes.len()..];
        match left {
            [] => assert!(rt; false),
            [length, others @ ..] => {
                assert_eq!(rt; part.bytes.len(), *length);
                assert_eq!(rt; part.last, others.is_empty());
                left = others;
            }
        }
    }
    assert!(rt; rest.is_empty());
    assert!(rt; left.is_empty());
}

#[test]
fn a_body_is_cut_into_parts(rt: HostRuntime) -> Result<(), Fail> {
    for (length, max, lengths) in &ROWS {
        let body = make_body(rt.alloc(), *length)?;
        go_through(&rt, &body, *max, lengths);
    }
    Ok(())
}
