ghost use Rattle.std.specs.Prelude.{◌≡◌, ◌≤◌, [], ◌∷◌, ◌++◌, length, OnOk, IfOk};
ghost use Rattle.taps_chain.specs.Layers.{layers_of};
ghost use Rattle.taps_command.specs.Meanings.{Returns};
ghost use Rattle.taps_command.specs.Places.{place_from, or_unknown, places_after, places_on, IsOnShelf, chain_of};
ghost use Rattle.taps_command.specs.Shelves.{layers_on};

use crate::layers::Layers;
use crate::stop::Unready;
use std::alloc::Global;
use taps_base::{Name, NoMemory};
use taps_chain::Chain;
use taps_framer::{Framer, name_in};
use taps_preconnection::Preconnection;
use taps_text::Refusal;

/// The framers that a file may name.
#[derive(Drop)]
pub struct Shelf<'a> {
    pub framers: &'a Vec<Box<dyn Framer>>,
}

/// The places of a file's framers, which are found by their names.
#[tactic(auto, unfolding(crate::specs::Places::places_on), using(crate::proofs::Places::few_places, crate::proofs::Places::places_within))]
pub fn find_framers<L: Layers>(
    alloc: Global,
    shelf: &Shelf<'_>,
    pre: &Preconnection,
) -> Result<Vec<usize>, Unready>
    requires shelf { layers_on ⟦<dyn Framer as Framer>⟧ shelf.now ≡ L.layers }
    requires few { length pre.now.framers.items ≤ 8 }
    ensures returns { Returns (λ places. places.items) (places_on L.layers pre.now.framers.items) result }
    ensures on_shelf { IfOk result (λ places. IsOnShelf L.layers places.items) }
{
    match find_all::<L>(alloc, shelf, pre.framers.as_slice()) {
        Ok(places) => Ok(places),
        Err(Unready::Refused(why)) => Err(Unready::Refused(why)),
        Err(Unready::NoMemory) => Err(Unready::NoMemory),
    }
}

/// The chain of the framers at these places.
#[tactic(auto, using(crate::proofs::Places::layers_there))]
pub fn chain<'a, L: Layers>(
    alloc: Global,
    shelf: &Shelf<'a>,
    places: &[usize],
) -> Result<Chain<'a>, NoMemory>
    requires shelf { layers_on ⟦<dyn Framer as Framer>⟧ shelf.now ≡ L.layers }
    requires on_shelf { IsOnShelf L.layers places.now }
    ensures { IfOk result (λ chain. layers_of ⟦<dyn Framer as Framer>⟧ chain ≡ chain_of L.layers places.now) }
{
    let chain = Chain::new(alloc, shelf.framers, places)?;
    Ok(chain)
}

fn find_all<L: Layers>(
    alloc: Global,
    shelf: &Shelf<'_>,
    names: &[Name],
) -> Result<Vec<usize>, Unready>
    requires { layers_on ⟦<dyn Framer as Framer>⟧ shelf.now ≡ L.layers }
    ensures { Returns (λ places. places.items) (places_after L.layers [] names.now) result }
{
    let mut places = Vec::new(alloc);
    for name in names {
        let place = find::<L>(shelf, name, places.len())?;
        if let Err(NoMemory) = add(&mut places, place) {
            return Err(Unready::NoMemory);
        }
    }
    Ok(places)
}

fn add(places: &mut Vec<usize>, place: usize) -> Result<(), NoMemory>
    ensures { OnOk result (places.new.items ≡ places.old.items ++ place ∷ []) }
{
    Ok(places.push(place)?)
}

// The place of the first framer with this name, which is the one at this place of the file's list.
fn find<L: Layers>(shelf: &Shelf<'_>, name: &Name, number: usize) -> Result<usize, Unready>
    requires { layers_on ⟦<dyn Framer as Framer>⟧ shelf.now ≡ L.layers }
    ensures { Returns (λ place. place) (or_unknown number (place_from 0 name.now L.layers)) result }
{
    match place_of(shelf, name.bytes()) {
        Some(place) => Ok(place),
        None => Err(Unready::Refused(Refusal::UnknownFramer(number as u64))),
    }
}

fn place_of(shelf: &Shelf<'_>, name: &[u8]) -> Option<usize>
    ensures { result ≡ place_from 0 name.now (layers_on ⟦<dyn Framer as Framer>⟧ shelf.now) }
{
    for (place, framer) in shelf.framers.iter().enumerate() {
        if name_in(framer).as_bytes() == name {
            return Some(place);
        }
    }
    None
}
