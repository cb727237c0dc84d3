ghost use Rattle.std.specs.Prelude.{◌≡◌};
ghost use Rattle.taps_racer.specs.Attempts as attempts;
ghost use Rattle.taps_racer.specs.Order.{is_open, is_pending};

/// What became of the socket of an attempt.
#[derive(Clone, Copy, Debug, PartialEq, Eq)]
pub enum State {
    Pending,
    Completed,
    Broken,
    Closed,
}

/// One attempt of a leaf.
#[derive(Clone, Copy, Debug, PartialEq, Eq)]
pub enum Attempt {
    /// It failed at once.
    Refused,
    /// It has a socket.
    Started { socket: u32, state: State },
}

impl Attempt {
    /// Its socket.
    pub(crate) fn socket(&self) -> Option<u32>
        ensures { result ≡ attempts.socket_of self.now }
    {
        match self {
            Attempt::Refused => None,
            Attempt::Started { socket, .. } => Some(*socket),
        }
    }

    /// Whether its socket is open.
    pub(crate) fn is_open(&self) -> bool
        ensures { result ≡ is_open self.now }
    {
        match self {
            Attempt::Refused => false,
            Attempt::Started { state, .. } => match state {
                State::Pending | State::Completed | State::Broken => true,
                State::Closed => false,
            },
        }
    }

    /// Whether its socket is pending.
    pub(crate) fn is_pending(&self) -> bool
        ensures { result ≡ is_pending self.now }
    {
        match self {
            Attempt::Refused => false,
            Attempt::Started { state, .. } => match state {
                State::Pending => true,
                State::Completed | State::Broken | State::Closed => false,
            },
        }
    }

    /// The attempt after its socket, if it is this one, came into a state.
    pub(crate) fn marked(self, wanted: u32, state: State) -> Attempt
        ensures { result ≡ attempts.marked wanted state self }
    {
        match self {
            Attempt::Refused => Attempt::Refused,
            Attempt::Started {
                socket,
                state: before,
            } => {
                if wanted == socket {
                    Attempt::Started { socket, state }
                } else {
                    Attempt::Started {
                        socket,
                        state: before,
                    }
                }
            }
        }
    }
}
