ghost use Rattle.std.specs.Prelude.{◌≡◌, ◌≤◌, ◌<◌, ◌-◌, ◌∷◌, [], reverse};
ghost use Rattle.taps_failing.specs.FailingCalls.{is_next, turned};
ghost use Rattle.taps_failing.specs.FailingNet.{own_at_first, Agrees};
ghost use Rattle.taps_failing.specs.SameSockets.{IsFailure};

use crate::failure::Failure;
use std::alloc::Global;
use std::marker::Model;
use taps_base::List;
use taps_socket::{Item, Sockets};

/// Sockets of which one call fails. The starts, waits, listens, accepts, sends and receives are numbered together from
/// 0, and the one of a given number isn't passed on to the others: it is refused, faulted or fails, as of an unnamed
/// cause, at the last reported time. All other calls are passed on.
///
/// Contracts see the others; and the items in order, that of the failed call among them, the last reported time, in
/// milliseconds, how many items can be added without memory, both there and here, and where the failing call stands.
#[derive(Drop)]
pub struct Failing<N: Sockets> {
    pub(crate) net: N,
    pub(crate) items: List<Item>,
    pub(crate) spare: u64,
    pub(crate) told: u64,
    pub(crate) failure: Failure,
}

impl<N: Sockets> Model for Failing<N> {
    ghost use Rattle.std.specs.Prelude.{◌≡◌, ◌≤◌, reverse};
    ghost use Rattle.taps_failing.specs.FailingNet.{Own, FailingState, Agrees};

    ghost Value = { FailingState N };

    ghost view = { λ f. record {
      net = f.net;
      own = record { trace = reverse f.items.items; told = f.told; spare = f.spare; failure = f.failure };
    } };

    ghost invariant = { λ f.
        (f.spare ≤ f.items.spare)
        × Agrees
        (record { trace = reverse f.items.items; told = f.told; spare = f.spare; failure = f.failure })
        (N.net f.net) };
}

impl<N: Sockets> Failing<N> {
    /// Over these sockets, which have no item yet; the call of this number fails. It takes no memory.
    pub fn new(alloc: Global, net: N, fail: u64) -> Failing<N>
        requires fresh { (N.net net).trace ≡ [] }
        requires unreserved { (N.net net).spare ≡ 0 }
        ensures { result ≡ record { net = net; own = own_at_first fail } }
    {
        Failing {
            net,
            items: List::new(alloc),
            spare: 0,
            told: 0,
            failure: Failure::Ahead(fail),
        }
    }

    /// The items so far, oldest first, and among them that of the failed call.
    pub fn items(&self) -> &[Item]
        ensures { reverse result.now ≡ self.now.own.trace }
    {
        self.items.as_slice()
    }
}
