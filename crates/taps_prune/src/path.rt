ghost use Rattle.std.specs.Prelude.{◌≡◌, ◌<◌, length};
ghost use Rattle.taps_preconnection.specs.PathOffers.{path_of};
ghost use Rattle.taps_preconnection.specs.Preconnections.{selection_for};
ghost use Rattle.taps_prune.specs.Survival as survival;

use taps_base::Name;
use taps_endpoint::Local;
use taps_preconnection::{Path, Preconnection};
use taps_property::{Role, Selection, is_met};

/// Whether the path at this place may be tried: it meets what the role asks of paths, and the
/// locals allow it.
pub fn path_survives(pre: &Preconnection, role: Role, path: usize) -> bool
    requires { path < length pre.now.paths.items }
    ensures { result ≡ survival.path_survives (selection_for pre.now role) pre.now.locals.items (path_of pre.now path) }
{
    let path = pre.path(path);
    meets_path(pre.selection(role), path) && is_local(pre.locals.as_slice(), path)
}

fn meets_path(selection: &Selection, path: &Path) -> bool
    ensures { result ≡ survival.meets_path selection.now path.now }
{
    meets_interfaces(selection, path)
        && meets_pvds(selection, path)
        && is_met(selection.temporary, path.temporary)
}

fn meets_interfaces(selection: &Selection, path: &Path) -> bool
    ensures { result ≡ survival.meets_interfaces selection.now path.now }
{
    selection.interface.as_slice().iter().all(|entry| is_met(
        entry.preference,
        path.offers_interface(&entry.name),
    ))
}

fn meets_pvds(selection: &Selection, path: &Path) -> bool
    ensures { result ≡ survival.meets_pvds selection.now path.now }
{
    selection.pvd.as_slice().iter().all(|entry| is_met(
        entry.preference,
        path.offers_pvd(&entry.name),
    ))
}

// Some local names the path's interface, or no local names any.
fn is_local(locals: &[Local], path: &Path) -> bool
    ensures { result ≡ survival.is_local locals.now path.now }
{
    name_none(locals) || name_interface_of(locals, path)
}

fn name_none(locals: &[Local]) -> bool
    ensures { result ≡ survival.name_none locals.now }
{
    locals.iter().all(|local| local.interface.is_none())
}

fn name_interface_of(locals: &[Local], path: &Path) -> bool
    ensures { result ≡ survival.name_interface_of path.now locals.now }
{
    locals
        .iter()
        .any(|local| is_interface_of(&local.interface, path))
}

fn is_interface_of(name: &Option<Name>, path: &Path) -> bool
    ensures { result ≡ survival.is_interface_of path.now name.now }
{
    match name {
        None => false,
        Some(name) => path.offers_interface(name),
    }
}
