ghost use Rattle.std.specs.Prelude.{◌≡◌, ◌≢◌, []};

use taps_socket::{Recorder, Sockets};

/// Sockets that keep the last reported time.
pub trait Reporting: Sockets {
    /// The last reported time, in milliseconds, once there is an item.
    fn told(&self) -> u64
        requires some { (Self.net self.now).trace ≢ [] }
        ensures { result ≡ (Self.net self.now).told };
}

impl<N: Sockets> Reporting for Recorder<N> {
    fn told(&self) -> u64 {
        Recorder::told(self)
    }
}
