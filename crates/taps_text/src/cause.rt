ghost use Rattle.std.specs.Prelude.{◌≡◌};
ghost use Rattle.taps_socket.specs.CauseWords.{cause_word};

use taps_socket::Cause;

/// The word of a cause.
pub(crate) fn word_of(cause: Cause) -> &'static [u8]
    ensures { result.now ≡ cause_word cause }
{
    match cause {
        Cause::Refused => b"refused",
        Cause::Unreachable => b"unreachable",
        Cause::Reset => b"reset",
        Cause::Memory => b"memory",
        Cause::Other => b"other",
    }
}
