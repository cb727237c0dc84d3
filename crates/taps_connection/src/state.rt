// The states of a connection.
ghost use Rattle.std.specs.Prelude.{◌≡◌};
ghost use Rattle.taps_property.specs.declared.conn_state.ConnState.{ConnState};

use taps_property::ConnState;

/// The socket is open, and messages are accepted. A connection in this state must be spent.
pub struct Established {}

/// The socket is open, and no more messages are accepted. A connection in this state must be spent.
pub struct Closing {}

/// The socket is closed.
#[derive(Drop)]
pub struct Closed {}

/// A state of a connection (RFC 9622 section 8.1.11).
pub trait State {
    ghost word: { ConnState };

    /// Its word.
    fn conn_state(&self) -> ConnState
        ensures { result ≡ word };
}

/// A state in which the socket is open.
pub trait Open: State {
    /// Leaves the state.
    fn leave(self);
}

impl State for Established {
    ghost use Rattle.taps_property.specs.declared.conn_state.ConnState.TheVariants as state;

    ghost word = { state.Established };

    fn conn_state(&self) -> ConnState {
        ConnState::Established
    }
}

impl State for Closing {
    ghost use Rattle.taps_property.specs.declared.conn_state.ConnState.TheVariants as state;

    ghost word = { state.Closing };

    fn conn_state(&self) -> ConnState {
        ConnState::Closing
    }
}

impl State for Closed {
    ghost use Rattle.taps_property.specs.declared.conn_state.ConnState.TheVariants as state;

    ghost word = { state.Closed };

    fn conn_state(&self) -> ConnState {
        ConnState::Closed
    }
}

impl Open for Established {
    fn leave(self) {
        let Established {} = self;
    }
}

impl Open for Closing {
    fn leave(self) {
        let Closing {} = self;
    }
}
