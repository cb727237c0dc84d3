ghost use Rattle.std.specs.Prelude.{◌≡◌};
ghost use Rattle.taps_real.specs.Channels.{fresh, with_room_of, sent_in};

/// What is kept of the bytes of one socket: whether it carries a stream and not datagrams, its room for
/// bytes to be sent, and the time of its last Sent, in milliseconds.
#[derive(Clone, Copy, Debug, PartialEq, Eq)]
pub(crate) struct Channel {
    pub stream: bool,
    pub room: usize,
    pub last_sent: Option<u64>,
}

impl Channel {
    /// That of a socket that was just given.
    pub(crate) fn new(stream: bool) -> Channel
        ensures { result ≡ fresh stream }
    {
        Channel {
            stream,
            room: 0,
            last_sent: None,
        }
    }

    /// Makes room for so many bytes to be sent.
    pub(crate) fn make_room(&mut self, bytes: usize)
        ensures { self.new ≡ with_room_of self.old bytes }
    {
        self.room = self.room.max(bytes);
    }

    /// Notes that so many bytes were taken at this time.
    pub(crate) fn note_sent(&mut self, count: usize, at: u64)
        ensures { self.new ≡ sent_in self.old count at }
    {
        self.room = self.room.saturating_sub(count);
        self.last_sent = Some(at);
    }
}
