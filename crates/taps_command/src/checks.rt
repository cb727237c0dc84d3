ghost use Rattle.std.specs.Prelude.{◌≡◌, ◌≤◌, length, Ok, IfOk};
ghost use Rattle.taps_preconnection.specs.Limits.{IsWithin};
ghost use Rattle.taps_command.specs.Checks as checks;
ghost use Rattle.taps_command.specs.Checks.{checked, valued, shelved, addressed, addresses_for};
ghost use Rattle.taps_command.specs.Meanings.{Returns};
ghost use Rattle.taps_command.specs.Places.{IsOnShelf};
ghost use Rattle.taps_command.specs.Ready.{HasMembers};
ghost use Rattle.taps_command.specs.Shelves.{layers_on};

use crate::layers::Layers;
use crate::ready::Ready;
use crate::shelf::{Shelf, find_framers};
use crate::stop::Unready;
use crate::two_files::TwoFiles;
use std::alloc::Global;
use taps_base::List;
use taps_endpoint::{Address, DeriveError, derive_addresses};
use taps_framer::Framer;
use taps_preconnection::{PreError, Preconnection, read_preconnection};
use taps_text::Refusal;

/// How many bytes FILE and SCRIPT may have.
pub const MOST_BYTES: u64 = 1_048_576;

/// How many bytes BYTES may have.
pub const MOST_FRAMED: u64 = 4_194_304;

/// What a command asks of FILE besides its format.
pub trait FileRules {
    ghost rules: { checks.FileRules };

    /// The addresses that the command needs.
    fn addresses(alloc: Global, pre: &Preconnection) -> Result<List<Address>, Unready>
        ensures returns { Returns (λ list. list.items) (rules.addresses pre.now) result }
        ensures few { IfOk result (λ list. length list.items ≤ 32) };
}

/// The checks of FILE: its format, its framers, its addresses.
#[tactic(auto, using(crate::proofs::FileChecks::checked_on, crate::proofs::FileChecks::checked_not))]
pub fn check_file<R: FileRules, L: Layers>(
    alloc: Global,
    shelf: &Shelf<'_>,
    bytes: &[u8],
) -> Result<Ready, Unready>
    requires { layers_on ⟦<dyn Framer as Framer>⟧ shelf.now ≡ L.layers }
    ensures returns { Returns (λ ready. ready) (checked R.rules L.layers bytes.now) result }
    ensures on_shelf { IfOk result (λ ready. IsOnShelf L.layers ready.places) }
{
    match read_value(alloc, bytes) {
        Ok(pre) => place::<R, L>(alloc, shelf, pre),
        Err(Unready::Refused(why)) => Err(Unready::Refused(why)),
        Err(Unready::NoMemory) => Err(Unready::NoMemory),
    }
}

// What the bytes mean.
#[tactic(auto, unfolding(crate::specs::Checks::valued))]
fn read_value(alloc: Global, bytes: &[u8]) -> Result<Preconnection, Unready>
    ensures returns { Returns (λ pre. pre) (valued bytes.now) result }
    ensures within { IfOk result IsWithin }
    ensures members { IfOk result HasMembers }
{
    match read_preconnection(alloc, bytes) {
        Ok(pre) => Ok(pre),
        Err(PreError::NoMemory) => Err(Unready::NoMemory),
        Err(refused) => Err(Unready::Refused(Refusal::File(refused))),
    }
}

// The framers, and then the addresses.
#[tactic(auto, using(crate::proofs::FileChecks::shelved_on))]
fn place<R: FileRules, L: Layers>(
    alloc: Global,
    shelf: &Shelf<'_>,
    pre: Preconnection,
) -> Result<Ready, Unready>
    requires shelf { layers_on ⟦<dyn Framer as Framer>⟧ shelf.now ≡ L.layers }
    requires within { IsWithin pre }
    requires members { HasMembers pre }
    ensures returns { Returns (λ ready. ready) (shelved R.rules L.layers pre) result }
    ensures on_shelf { IfOk result (λ ready. IsOnShelf L.layers ready.places) }
{
    match find_framers::<L>(alloc, shelf, &pre) {
        Ok(places) => address::<R>(alloc, pre, places),
        Err(unready) => Err(unready),
    }
}

#[tactic(auto, unfolding(crate::specs::Checks::addressed))]
fn address<R: FileRules>(
    alloc: Global,
    pre: Preconnection,
    places: Vec<usize>,
) -> Result<Ready, Unready>
    requires within { IsWithin pre }
    requires members { HasMembers pre }
    ensures returns { Returns (λ ready. ready) (addressed R.rules pre places.items) result }
    ensures places { IfOk result (λ ready. ready.places ≡ places.items) }
{
    let addresses = R::addresses(alloc, &pre)?;
    Ok(Ready {
        pre,
        places,
        addresses,
    })
}

/// The addresses of the remotes, each once, of which there may be 32.
#[tactic(auto, unfolding(crate::specs::Checks::addresses_for))]
pub fn derive(alloc: Global, pre: &Preconnection) -> Result<List<Address>, Unready>
    ensures returns { Returns (λ list. list.items) (addresses_for pre.now) result }
    ensures few { IfOk result (λ list. length list.items ≤ 32) }
{
    match derive_addresses(alloc, &pre.remotes, &pre.hosts) {
        Ok(addresses) => Ok(addresses),
        Err(DeriveError::TooMany(count)) => Err(Unready::Refused(Refusal::TooManyRemotes(count))),
        Err(DeriveError::NoMemory) => Err(Unready::NoMemory),
    }
}

/// What FILE gives as the only file.
pub fn check_only<R: FileRules, L: Layers>(
    alloc: Global,
    shelf: &Shelf<'_>,
    bytes: &[u8],
) -> Result<Option<Ready>, Unready>
    requires { layers_on ⟦<dyn Framer as Framer>⟧ shelf.now ≡ L.layers }
    ensures returns { Returns (λ value. value) (checks.only_value R.rules L.layers bytes.now) result }
    ensures on_shelf { IfOk result (λ value. checks.HasFramers L.layers value) }
{
    match check_file::<R, L>(alloc, shelf, bytes) {
        Ok(ready) => Ok(Some(ready)),
        Err(Unready::Refused(why)) => Err(Unready::Refused(why)),
        Err(Unready::NoMemory) => Err(Unready::NoMemory),
    }
}

/// What FILE gives as the first of two.
pub fn check_first<R: FileRules, L: Layers, T: Drop>(
    alloc: Global,
    shelf: &Shelf<'_>,
    bytes: &[u8],
) -> Result<TwoFiles<T>, Unready>
    requires { layers_on ⟦<dyn Framer as Framer>⟧ shelf.now ≡ L.layers }
    ensures returns { Returns (λ value. value) (checks.first_value R.rules L.layers bytes.now) result }
    ensures on_shelf { IfOk result (λ value. checks.HasFirst L.layers value) }
{
    match check_file::<R, L>(alloc, shelf, bytes) {
        Ok(ready) => Ok(TwoFiles::File(ready)),
        Err(Unready::Refused(why)) => Err(Unready::Refused(why)),
        Err(Unready::NoMemory) => Err(Unready::NoMemory),
    }
}
