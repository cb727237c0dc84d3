ghost use Rattle.std.specs.Prelude.{◌<◌, ◌≤◌, length};
ghost use Rattle.taps_chain.specs.Layers.{layers_of};
ghost use Rattle.taps_example_client.specs.Decodings.{Decodes};

use std::alloc::Global;
use taps_base::{Body, List};
use taps_chain::{BadAt, Chain, Heard, hear_bytes};
use taps_framer::Framer;

/// Why bytes are no whole messages.
#[derive(Clone, Copy, Debug, PartialEq, Eq)]
pub enum DecodeError {
    /// They are bad.
    Bad(BadAt),
    /// So many at their end begin a message, and end before it does.
    Rest(u64),
    /// Memory ran out.
    NoMemory,
}

/// The messages that the bytes are, by a chain of at least one framer.
#[tactic(auto, using(crate::proofs::Decoding::decoded))]
pub fn decode(alloc: Global, chain: Chain<'_>, bytes: &[u8]) -> Result<List<Body>, DecodeError>
    requires some { 0 < length (layers_of ⟦<dyn Framer as Framer>⟧ chain) }
    requires few { length bytes.now ≤ 4194304 }
    ensures { Decodes (layers_of ⟦<dyn Framer as Framer>⟧ chain.entry) bytes.now result }
{
    let mut messages = List::new(alloc);
    let hearing = hear_bytes(chain, bytes, 4096, &mut messages);
    match hearing.end {
        Heard::Bad(at) => Err(DecodeError::Bad(at)),
        Heard::NoMemory => Err(DecodeError::NoMemory),
        Heard::Need => {
            if hearing.rest > 0 {
                return Err(DecodeError::Rest(hearing.rest));
            }
            Ok(messages)
        }
        Heard::Message(_) => unreachable!(),
    }
}
