ghost use Rattle.std.specs.Prelude.{◌≡◌, ◌==◌, ◌<◌, ◌≤◌, length, map, slice_get, All, IfOk};

use std::alloc::Global;
use taps_base::NoMemory;
use taps_framer::{Framer, vouch_in};

/// Framers of a shelf, one on the other: layer 0 is nearest to the transport.
///
/// Contracts see what each layer means, in this order.
#[derive(Drop)]
pub struct Chain<'a> {
    framers: Vec<&'a Box<dyn Framer>>,
    ghost few: { length framers.items ≤ 8 },
}

impl<'a> Chain<'a> {
    ghost use Rattle.taps_chain.specs.Layers.{layers_of};
    ghost use Rattle.taps_chain.specs.ChainLaws.{AreFramers, IsLawfulChain};

    /// The chain of the framers at these places of the shelf.
    pub fn new(
        alloc: Global,
        shelf: &'a Vec<Box<dyn Framer>>,
        places: &[usize],
    ) -> Result<Chain<'a>, NoMemory>
        requires few { length places.now ≤ 8 }
        requires within { All (λ p. p < length shelf.now.items) places.now }
        ensures count { IfOk result (λ chain. length (layers_of ⟦<dyn Framer as Framer>⟧ chain) ≡ length places.now) }
        ensures layers { IfOk result (λ chain. map Some (layers_of ⟦<dyn Framer as Framer>⟧ chain) ≡
            map (slice_get (map (λ b. layer b) shelf.now.items)) places.now) }
    {
        let mut framers = Vec::with_capacity(alloc, places.len())?;
        for place in places {
            framers.push(&shelf[*place])?;
        }
        Ok(Chain { framers })
    }

    /// The same chain once more, over the same shelf.
    pub fn copy(&self) -> Result<Chain<'a>, NoMemory>
        ensures { IfOk result (λ chain. layers_of ⟦<dyn Framer as Framer>⟧ chain ≡
            layers_of ⟦<dyn Framer as Framer>⟧ self.now) }
    {
        Ok(Chain {
            framers: Vec::from_slice(self.allocator(), &self.framers)?,
        })
    }

    /// The allocator that the chain keeps.
    pub(crate) fn allocator(&self) -> Global {
        *self.framers.allocator()
    }

    /// Whether it has no layer.
    pub fn is_empty(&self) -> bool
        ensures { result ≡ (length (layers_of ⟦<dyn Framer as Framer>⟧ self.now) == 0) }
    {
        self.framers.is_empty()
    }

    /// The number of its layers.
    pub(crate) fn len(&self) -> usize
        ensures count { result ≡ length (layers_of ⟦<dyn Framer as Framer>⟧ self.now) }
        ensures few { result ≤ 8 }
    {
        self.framers.len()
    }

    /// The framer of a layer.
    pub(crate) fn at(&self, depth: usize) -> &'a Box<dyn Framer>
        requires { depth < length (layers_of ⟦<dyn Framer as Framer>⟧ self.now) }
        ensures { slice_get (layers_of ⟦<dyn Framer as Framer>⟧ self.now) depth ≡ Some (layer result.now) }
    {
        self.framers[depth]
    }

    /// Nothing: its clause has the laws of the chain, for who holds it.
    #[tactic(auto, using(crate::proofs::Lawful::lawful_chain))]
    pub fn vouch(&self)
        ensures { IsLawfulChain (layers_of ⟦<dyn Framer as Framer>⟧ self.now) }
    {
        self.vouch_each();
    }

    /// Nothing: its clause has the laws of each layer.
    pub(crate) fn vouch_each(&self)
        ensures { AreFramers (layers_of ⟦<dyn Framer as Framer>⟧ self.now) }
    {
        for depth in 0..self.len() {
            vouch_in(self.at(depth), 0);
        }
    }
}
