ghost use Rattle.std.specs.Prelude.{◌≡◌};
ghost use Rattle.taps_message.specs.Expiry.{has_expired};

use crate::Message;

/// A message that was accepted, with its number and the moment in milliseconds.
#[derive(Drop)]
pub(crate) struct Accepted {
    pub(crate) number: u64,
    pub(crate) at: u64,
    pub(crate) message: Message,
}

/// The number of a message that was taken out, and the moment at which it was accepted.
#[derive(Clone, Copy)]
pub(crate) struct Taken {
    pub(crate) number: u64,
    pub(crate) at: u64,
}

impl Accepted {
    /// Whether its lifetime has passed at this moment.
    pub(crate) fn has_expired(&self, at: u64) -> bool
        ensures { result ≡ has_expired self.now at }
    {
        match self.message.props.msg_lifetime {
            None => false,
            Some(lifetime) => self.at <= at && lifetime <= at - self.at,
        }
    }
}
