ghost use Rattle.std.specs.Prelude.{◌≡◌, ◌≤◌};
ghost use Rattle.std.specs.Iterator.{YieldsFirstBy, item_count};
ghost use Rattle.taps_message.specs.Parts.{ArePartsOf};

use std::marker::Model;
use taps_base::Body;

/// A part of a body: some of its bytes, and whether they are the last.
#[derive(Clone, Copy, Debug)]
pub struct Part<'a> {
    pub bytes: &'a [u8],
    pub last: bool,
}

/// The parts of a body, which contracts see as the list of those that are left.
#[derive(Drop)]
pub struct PartIter<'a> {
    // The bytes that are left, and after the last part none.
    rest: Option<&'a [u8]>,
    max: usize,
}

impl<'a> Model for PartIter<'a> {
    ghost use Rattle.std.specs.Prelude.{◌≤◌, List};
    ghost use Rattle.taps_message.specs.Parts.{PartState, parts_left};

    ghost Value = { List PartState };

    ghost view = { λ it. parts_left it.max it.rest };

    ghost invariant = { λ it. 1 ≤ it.max };
}

impl<'a> Iterator for PartIter<'a> {
    type Item = Part<'a>;

    ghost next_gives = { YieldsFirstBy (λ part. record { bytes = part.bytes.now; last = part.last }) (λ left. left) };

    ghost remaining = { item_count (λ left. left) };

    fn next(&mut self) -> Option<Part<'a>> {
        let bytes = self.rest?;
        if bytes.len() <= self.max {
            self.rest = None;
            return Some(Part { bytes, last: true });
        }
        let (part, rest) = bytes.split_at(self.max);
        self.rest = Some(rest);
        Some(Part {
            bytes: part,
            last: false,
        })
    }
}

/// The parts of a body, of at most this many bytes each. An empty body has one part.
pub fn parts(body: &Body, max: u64) -> PartIter<'_>
    requires { 1 ≤ max }
    ensures { ArePartsOf body.now max result }
{
    PartIter {
        rest: Some(body.bytes()),
        max: max as usize,
    }
}
