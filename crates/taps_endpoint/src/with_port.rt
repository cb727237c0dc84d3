ghost use Rattle.taps_endpoint.specs.PortMachine.{step_with_port, value_with_port, HoldsInside};
ghost use Rattle.taps_endpoint.specs.declared.with_port.WithPort.TheVariants.{Inside, Port};

use crate::machine::{Machine, Whole};
use crate::number::one_digit_more;

/// How far a value and its port were read.
#[derive(Drop)]
pub enum WithPort<M, V> {
    Inside(M),
    Port(V, Option<u16>),
}

impl<M: Whole> Machine for WithPort<M, M::Value> {
    type Value = (M::Value, u16);

    ghost step = { step_with_port M.step M.at_end };

    ghost at_end = { value_with_port };

    ghost is_small = { HoldsInside M.is_small };

    ghost start = { Inside M.start };

    fn begin() -> Self {
        WithPort::Inside(M::begin())
    }

    fn advance(&mut self, byte: u8) -> bool {
        match self {
            WithPort::Inside(state) => {
                if byte == b':' && state.is_whole() {
                    return match state.finish() {
                        Some(value) => {
                            *self = WithPort::Port(value, None);
                            true
                        }
                        None => false,
                    };
                }
                state.advance(byte)
            }
            WithPort::Port(_, number) => {
                if !byte.is_ascii_digit() {
                    return false;
                }
                match one_digit_more(1, 65535, *number, u16::from(byte - b'0')) {
                    Some(longer) => {
                        *number = Some(longer);
                        true
                    }
                    None => false,
                }
            }
        }
    }

    fn finish(&self) -> Option<Self::Value> {
        match self {
            WithPort::Inside(_) => None,
            WithPort::Port(value, number) => Some((*value, (*number)?)),
        }
    }
}
