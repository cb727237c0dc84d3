ghost use Rattle.std.specs.Prelude.{◌≡◌};
ghost use Rattle.taps_command.specs.Codes.{code_of};

/// How a command ended.
#[derive(Clone, Copy, Debug, PartialEq, Eq)]
pub enum Status {
    /// The command did all of its work.
    Done,
    /// There is no such command, or it has other files.
    Usage,
    /// A file fails a check.
    Refused,
    /// No connection was established: there was no candidate, each failed, or the time had passed.
    Establishment,
    /// A message could not be framed or heard, or bytes are left.
    Exchange,
    /// A file could not be read.
    FileFault,
    /// The output did not take the text.
    SinkFault,
    /// A wait on the sockets was faulted.
    SocketFault,
    /// Memory ran out.
    NoMemory,
    /// The moment at which the application gives up had passed.
    Closed,
}

impl Status {
    /// The exit code.
    pub fn code(self) -> u8
        ensures { result ≡ code_of self }
    {
        match self {
            Status::Done => 0,
            Status::Usage => 2,
            Status::Refused => 3,
            Status::Establishment => 4,
            Status::Exchange => 5,
            Status::FileFault => 6,
            Status::SinkFault => 7,
            Status::SocketFault => 8,
            Status::NoMemory => 9,
            Status::Closed => 10,
        }
    }
}
