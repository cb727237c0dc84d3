ghost use Rattle.std.specs.Prelude.{◌≡◌, IfOk, map, slice_index};
ghost use Rattle.std.specs.List.{enumerate_from};
ghost use Rattle.taps_rank.specs.Order.{places_in_order, turn_key};

use crate::Turns;
use std::alloc::Global;
use taps_base::{List, NoMemory};
use taps_endpoint::Family;

/// The places of addresses of these families in the order in which they are tried: by round, then
/// side, then place.
pub fn address_order(alloc: Global, families: &[Family]) -> Result<List<u64>, NoMemory>
    ensures { IfOk result (λ places. places.items ≡ places_in_order families.now) }
{
    let mut keys = turn_keys(alloc, families)?;
    keys.sort_unstable();
    let places = places(alloc, &keys)?;
    Ok(List::from_vec(places))
}

fn places(alloc: Global, keys: &[[u64; 3]]) -> Result<Vec<u64>, NoMemory>
    ensures { IfOk result (λ places. places.items ≡ map (λ key. slice_index key 2) keys.now) }
{
    Ok(keys.iter().map(|key| key[2]).collect(alloc)?)
}

// Round, side and place of each.
fn turn_keys(alloc: Global, families: &[Family]) -> Result<Vec<[u64; 3]>, NoMemory>
    ensures { IfOk result (λ keys.
        keys.items ≡ map (turn_key (enumerate_from 0 families.now)) (enumerate_from 0 families.now)) }
{
    let mut keys = Vec::with_capacity(alloc, families.len())?;
    let mut turns = Turns::new();
    for (place, family) in families.iter().enumerate() {
        let turn = turns.take(*family);
        keys.push([turn.round, turn.side, place as u64])?;
    }
    Ok(keys)
}
