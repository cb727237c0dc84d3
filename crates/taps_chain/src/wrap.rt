ghost use Rattle.std.specs.Prelude.{◌≡◌, ◌<◌, true, IfOk, IfErr, OnOk};
ghost use Rattle.taps_chain.specs.Chained.{chained, chain_refusal, IsSpoken};
ghost use Rattle.taps_chain.specs.Layers.{layers_of};
ghost use Rattle.taps_chain.specs.Wraps.{IsRefusal};

use crate::Chain;
use std::alloc::Global;
use taps_base::NoMemory;
use taps_framer::{Framer, speaks_in, write_in};

/// Why a body has no chained bytes.
#[derive(Clone, Copy, Debug, PartialEq, Eq)]
pub enum WrapError {
    /// The layer, counted from 0, does not speak what is handed to it.
    NotSpeakable(u8),
    /// Memory ran out.
    NoMemory,
}

impl From<NoMemory> for WrapError {
    ghost use Rattle.std.specs.Prelude.{◌≡◌};
    ghost use Rattle.taps_chain.specs.declared.wrap.WrapError.TheVariants as wrap;

    ghost from_gives = { λ _ e. e ≡ wrap.NoMemory };

    fn from(_: NoMemory) -> WrapError {
        WrapError::NoMemory
    }
}

impl<'a> Chain<'a> {
    /// The bytes of a body as the message of this index. The last layer frames it first.
    pub fn wrap(&self, index: u64, body: &[u8]) -> Result<Vec<u8>, WrapError>
        ensures spoken { OnOk result (IsSpoken (layers_of ⟦<dyn Framer as Framer>⟧ self.now) index body.now) }
        ensures chained { IfOk result (λ bytes. bytes.items ≡
            chained (layers_of ⟦<dyn Framer as Framer>⟧ self.now) index body.now) }
        ensures refused { IfErr result (IsRefusal
            (chain_refusal (layers_of ⟦<dyn Framer as Framer>⟧ self.now) index body.now)) }
    {
        let alloc = self.allocator();
        let mut current = copied(alloc, body)?;
        let mut depth = self.len();
        while depth > 0 {
            depth -= 1;
            let framer = self.at(depth);
            if !speaks_in(framer, &current) {
                return Err(WrapError::NotSpeakable(depth as u8));
            }
            current = framed(alloc, framer, index, &current)?;
        }
        Ok(current)
    }
}

fn copied(alloc: Global, bytes: &[u8]) -> Result<Vec<u8>, NoMemory>
    ensures { IfOk result (λ copy. copy.items ≡ bytes.now) }
{
    Ok(Vec::from_slice(alloc, bytes)?)
}

// The frame of a body by one layer.
fn framed(
    alloc: Global,
    framer: &Box<dyn Framer>,
    index: u64,
    body: &[u8],
) -> Result<Vec<u8>, NoMemory>
    requires { (layer framer.now).speaks body.now ≡ true }
    ensures { IfOk result (λ frame. frame.items ≡ (layer framer.now).frame index body.now) }
{
    let mut frame = Vec::new(alloc);
    write_in(framer, index, body, &mut frame)?;
    Ok(frame)
}
