ghost use Rattle.std.specs.Prelude.{◌≡◌};
ghost use Rattle.std.specs.IoError.{error_kind, raw_os_error};
ghost use Rattle.taps_real.specs.Causes as causes;

use std::io;
use std::io::ErrorKind;
use taps_socket::Cause;

// Numbers of Linux that no kind stands for: ENFILE, EMFILE, ENOBUFS.
const OUT_OF_MEANS: [i32; 3] = [23, 24, 105];

/// The cause of a failed call.
pub(crate) fn cause_of(error: &io::Error) -> Cause
    ensures { result ≡ causes.cause_of (error_kind error.now) (raw_os_error error.now) }
{
    match cause_by_kind(error.kind()) {
        Some(cause) => cause,
        None => cause_by_number(error.raw_os_error()),
    }
}

fn cause_by_kind(kind: ErrorKind) -> Option<Cause>
    ensures { result ≡ causes.cause_by_kind kind }
{
    match kind {
        ErrorKind::ConnectionRefused => Some(Cause::Refused),
        ErrorKind::HostUnreachable
        | ErrorKind::NetworkUnreachable
        | ErrorKind::NetworkDown
        | ErrorKind::TimedOut => Some(Cause::Unreachable),
        ErrorKind::ConnectionReset
        | ErrorKind::ConnectionAborted
        | ErrorKind::BrokenPipe
        | ErrorKind::NotConnected => Some(Cause::Reset),
        ErrorKind::OutOfMemory => Some(Cause::Memory),
        _ => None,
    }
}

fn cause_by_number(number: Option<i32>) -> Cause
    ensures { result ≡ causes.cause_by_number number }
{
    match number {
        Some(number) => {
            if OUT_OF_MEANS.contains(&number) {
                Cause::Memory
            } else {
                Cause::Other
            }
        }
        None => Cause::Other,
    }
}

/// The cause of a failed start. No file at the path of a Unix socket: nobody listens there.
pub(crate) fn cause_of_start(error: &io::Error) -> Cause
    ensures { result ≡ causes.cause_of_start (error_kind error.now) (raw_os_error error.now) }
{
    match error.kind() {
        ErrorKind::NotFound => Cause::Refused,
        _ => cause_of(error),
    }
}

/// Whether a call that failed so is to be tried again in the next round.
pub(crate) fn is_to_try_again(error: &io::Error) -> bool
    ensures { result ≡ causes.is_to_try_again (error_kind error.now) }
{
    match error.kind() {
        ErrorKind::WouldBlock | ErrorKind::Interrupted => true,
        _ => false,
    }
}

// Numbers of Linux that `accept` passes on from the connection: EPROTO, ENONET, ENOPROTOOPT, EHOSTDOWN.
const PASSED_ON: [i32; 4] = [71, 64, 92, 112];

/// Whether an accept that failed so is to be tried again: the one connection failed, not the listener.
pub(crate) fn is_to_accept_again(error: &io::Error) -> bool
    ensures { result ≡ causes.is_to_accept_again (error_kind error.now) (raw_os_error error.now) }
{
    fails_once(error.kind()) || is_passed_on(error.raw_os_error())
}

fn fails_once(kind: ErrorKind) -> bool
    ensures { result ≡ causes.fails_once kind }
{
    match kind {
        ErrorKind::WouldBlock
        | ErrorKind::Interrupted
        | ErrorKind::ConnectionAborted
        | ErrorKind::NetworkDown
        | ErrorKind::NetworkUnreachable
        | ErrorKind::HostUnreachable
        | ErrorKind::Unsupported => true,
        _ => false,
    }
}

fn is_passed_on(number: Option<i32>) -> bool
    ensures { result ≡ causes.is_passed_on number }
{
    match number {
        Some(number) => PASSED_ON.contains(&number),
        None => false,
    }
}
