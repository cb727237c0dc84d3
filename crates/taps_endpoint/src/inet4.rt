ghost use Rattle.std.specs.Prelude.{◌≡◌, ◌≤◌, IfSome};
ghost use Rattle.taps_endpoint.specs.Inet4Machine.{passed, step_inet4, at_end_inet4, fresh, AreOctets};
ghost use Rattle.taps_endpoint.specs.Inet6Machine.{quad_of};
ghost use Rattle.taps_endpoint.specs.declared.inet4.Before.TheVariants.{Zero};

use crate::machine::{Machine, Whole};
use crate::number::one_digit_more;

/// The numbers that were read whole, each with the byte behind it.
#[derive(Clone, Copy, Debug)]
pub enum Before {
    Zero,
    One(u8),
    Two(u8, u8),
    Three(u8, u8, u8),
}

/// How far an address was read: the whole numbers, and the one that was begun.
#[derive(Clone, Copy, Debug)]
pub struct Inet4State {
    before: Before,
    number: Option<u16>,
}

/// Nothing was read.
pub fn start() -> Inet4State
    ensures { result ≡ fresh Zero }
{
    Inet4State {
        before: Before::Zero,
        number: None,
    }
}

fn pass(before: Before, number: u16, byte: u8) -> Option<Before>
    requires { number ≤ 255 }
    ensures { result ≡ passed before number byte }
{
    match before {
        Before::Zero if byte == b'.' => Some(Before::One(number as u8)),
        Before::One(a) if byte == b'.' => Some(Before::Two(a, number as u8)),
        Before::Two(a, b) if byte == b'.' => Some(Before::Three(a, b, number as u8)),
        _ => None,
    }
}

impl Machine for Inet4State {
    type Value = [u8; 4];

    ghost step = { step_inet4 };

    ghost at_end = { at_end_inet4 };

    ghost is_small = { AreOctets };

    ghost start = { fresh Zero };

    fn begin() -> Self {
        start()
    }

    #[tactic(auto, unfolding(crate::specs::Inet4Machine::step_inet4))]
    fn advance(&mut self, byte: u8) -> bool {
        match step(*self, byte) {
            Some(next) => {
                *self = next;
                true
            }
            None => false,
        }
    }

    #[tactic(auto, unfolding(crate::specs::Inet4Machine::at_end_inet4))]
    fn finish(&self) -> Option<Self::Value> {
        let number = self.number?;
        match self.before {
            Before::Three(a, b, c) => Some([a, b, c, number as u8]),
            _ => None,
        }
    }
}

/// The state behind one more byte.
#[tactic(auto, unfolding(crate::specs::Inet4Machine::step_inet4))]
pub fn step(state: Inet4State, byte: u8) -> Option<Inet4State>
    requires { AreOctets state }
    ensures steps { result ≡ step_inet4 state byte }
    ensures small { IfSome result AreOctets }
{
    let before = state.before;
    if byte.is_ascii_digit() {
        let number = one_digit_more(0, 255, state.number, u16::from(byte - b'0'))?;
        return Some(Inet4State {
            before,
            number: Some(number),
        });
    }
    let before = pass(before, state.number?, byte)?;
    Some(Inet4State {
        before,
        number: None,
    })
}

impl Whole for Inet4State {
    #[tactic(auto, unfolding(crate::specs::Inet4Machine::at_end_inet4))]
    fn is_whole(&self) -> bool {
        match self.number {
            None => false,
            Some(_) => matches!(self.before, Before::Three(_, _, _)),
        }
    }
}

/// The two fields for which an IPv4 text stands.
pub fn two_fields(state: Inet4State) -> Option<[u16; 2]>
    requires { AreOctets state }
    ensures { result ≡ quad_of state }
{
    let number = state.number?;
    match state.before {
        Before::Three(a, b, c) => Some([
            256 * u16::from(a) + u16::from(b),
            256 * u16::from(c) + number,
        ]),
        _ => None,
    }
}
