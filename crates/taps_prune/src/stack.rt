ghost use Rattle.std.specs.Prelude.{◌≡◌};
ghost use Rattle.taps_preconnection.specs.Preconnections.{selection_for};
ghost use Rattle.taps_prune.specs.Survival as survival;

use taps_preconnection::Preconnection;
use taps_property::{Role, Selection, StackProperty, is_met};
use taps_stack::{Stack, is_stream, offers};

/// Whether a stack may be tried: it meets what the role asks of stacks, and suits the role.
pub fn stack_survives(pre: &Preconnection, role: Role, stack: Stack) -> bool
    ensures { result ≡ survival.stack_survives (selection_for pre.now role) role stack }
{
    meets_all(pre.selection(role), stack) && suits(role, stack)
}

fn meets_all(selection: &Selection, stack: Stack) -> bool
    ensures { result ≡ survival.meets_all selection.now stack }
{
    selection.stack.iter().zip(StackProperty::ALL.iter()).all(|(preference, property)| is_met(
        *preference,
        offers(stack, *property),
    ))
}

// A role that awaits connections takes streams alone.
fn suits(role: Role, stack: Stack) -> bool
    ensures { result ≡ survival.suits role stack }
{
    match role {
        Role::Initiate => true,
        Role::Listen | Role::Rendezvous => is_stream(stack),
    }
}
