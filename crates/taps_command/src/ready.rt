use std::marker::Model;
use taps_base::List;
use taps_endpoint::Address;
use taps_preconnection::Preconnection;

/// What FILE gives a command once it has passed its checks. It keeps the limits of a race, and
/// messages and priorities are those of members that there are.
#[derive(Drop)]
pub struct Ready {
    pub pre: Preconnection,
    /// The places of its framers on the shelf.
    pub places: Vec<usize>,
    /// Those of the remotes, each once.
    pub addresses: List<Address>,
}

impl Model for Ready {
    ghost use Rattle.taps_command.specs.Ready as specs;
    ghost use Rattle.std.specs.Prelude.{◌≤◌, length};
    ghost use Rattle.taps_preconnection.specs.Limits.{IsWithin};
    ghost use Rattle.taps_command.specs.Ready.{HasMembers};

    ghost Value = { specs.Ready };

    ghost view = { λ r. record { pre = r.pre; places = r.places.items; addresses = r.addresses.items } };

    ghost invariant = { λ r. IsWithin r.pre × (HasMembers r.pre × (length r.addresses.items ≤ 32)) };
}
