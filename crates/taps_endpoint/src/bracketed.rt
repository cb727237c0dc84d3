ghost use Rattle.taps_endpoint.specs.BracketMachine.{step_bracketed, value_bracketed, HoldsInside};
ghost use Rattle.taps_endpoint.specs.declared.bracketed.Bracketed.TheVariants.{Outside, Inside, Closed};

use crate::machine::{Machine, Whole};

/// How far a value in brackets was read.
#[derive(Drop)]
pub enum Bracketed<M, V> {
    Outside,
    Inside(M),
    Closed(V),
}

impl<M: Machine> Machine for Bracketed<M, M::Value> {
    type Value = M::Value;

    ghost step = { step_bracketed M.step M.at_end M.start };

    ghost at_end = { value_bracketed };

    ghost is_small = { HoldsInside M.is_small };

    ghost start = { Outside };

    fn begin() -> Self {
        Bracketed::Outside
    }

    fn advance(&mut self, byte: u8) -> bool {
        match self {
            Bracketed::Outside => {
                if byte == b'[' {
                    *self = Bracketed::Inside(M::begin());
                    return true;
                }
                false
            }
            Bracketed::Inside(state) => {
                if byte == b']' {
                    return match state.finish() {
                        Some(value) => {
                            *self = Bracketed::Closed(value);
                            true
                        }
                        None => false,
                    };
                }
                state.advance(byte)
            }
            Bracketed::Closed(_) => false,
        }
    }

    fn finish(&self) -> Option<Self::Value> {
        match self {
            Bracketed::Outside => None,
            Bracketed::Inside(_) => None,
            Bracketed::Closed(value) => Some(*value),
        }
    }
}

impl<M: Machine> Whole for Bracketed<M, M::Value> {
    fn is_whole(&self) -> bool {
        match self {
            Bracketed::Outside => false,
            Bracketed::Inside(_) => false,
            Bracketed::Closed(_) => true,
        }
    }
}
