ghost use Rattle.std.specs.Prelude.{◌≡◌, ◌<◌, length};
ghost use Rattle.taps_preconnection.specs.PathOffers.{path_of};
ghost use Rattle.taps_preconnection.specs.Preconnections.{selection_for};
ghost use Rattle.taps_prune.specs.Survival as survival;

use crate::{path_survives, stack_survives};
use taps_endpoint::Address;
use taps_preconnection::{Path, Preconnection};
use taps_property::Role;
use taps_stack::{Stack, carries};

/// Whether the path at this place, the stack and the address may be tried together.
pub fn leaf_survives(
    pre: &Preconnection,
    role: Role,
    path: usize,
    stack: Stack,
    address: &Address,
) -> bool
    requires { path < length pre.now.paths.items }
    ensures { result ≡ survival.survives (selection_for pre.now role) role pre.now.locals.items
        (path_of pre.now path) stack address.now }
{
    path_survives(pre, role, path)
        && stack_survives(pre, role, stack)
        && is_reachable(pre.path(path), stack, address)
}

/// Whether the stack carries the address's family and the path leads to it.
pub fn is_reachable(path: &Path, stack: Stack, address: &Address) -> bool
    ensures { result ≡ survival.is_reachable path.now stack address.now }
{
    carries(stack, address.family()) && path.leads_to(address.family())
}
