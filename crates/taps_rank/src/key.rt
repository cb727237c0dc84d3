ghost use Rattle.std.specs.Prelude.{◌≡◌, ◌<◌, ◌^◌, length};
ghost use Rattle.taps_preconnection.specs.PathOffers.{path_of};
ghost use Rattle.taps_preconnection.specs.Preconnections.{selection_for};
ghost use Rattle.taps_rank.specs.Keys as keys;

use taps_preconnection::{Path, Preconnection};
use taps_property::{Role, Selection, StackProperty, is_soft_unmet};
use taps_stack::{Stack, offers};

/// How many preferences about paths are softly unmet by the path at this place.
pub fn path_key(pre: &Preconnection, role: Role, path: usize) -> u64
    requires { path < length pre.now.paths.items }
    ensures { result ≡ keys.path_key (selection_for pre.now role) (path_of pre.now path) }
{
    let selection = pre.selection(role);
    let path = pre.path(path);
    let temporary = is_soft_unmet(selection.temporary, path.temporary);
    unmet_interfaces(selection, path) + unmet_pvds(selection, path) + temporary as u64
}

fn unmet_interfaces(selection: &Selection, path: &Path) -> u64
    ensures count { result ≡ keys.unmet_interfaces selection.now path.now }
    ensures small { result < 2 ^ 62 }
{
    let entries = selection.interface.as_slice();
    entries
        .iter()
        .filter(|entry| is_soft_unmet(entry.preference, path.offers_interface(&entry.name)))
        .count() as u64
}

fn unmet_pvds(selection: &Selection, path: &Path) -> u64
    ensures count { result ≡ keys.unmet_pvds selection.now path.now }
    ensures small { result < 2 ^ 62 }
{
    let entries = selection.pvd.as_slice();
    entries
        .iter()
        .filter(|entry| is_soft_unmet(entry.preference, path.offers_pvd(&entry.name)))
        .count() as u64
}

/// How many preferences about stacks are softly unmet by the stack.
pub fn stack_key(pre: &Preconnection, role: Role, stack: Stack) -> u64
    ensures { result ≡ keys.stack_key (selection_for pre.now role) stack }
{
    pre.selection(role)
        .stack
        .iter()
        .zip(StackProperty::ALL.iter())
        .filter(|(preference, property)| is_soft_unmet(**preference, offers(stack, **property)))
        .count() as u64
}
