ghost use Rattle.std.specs.Prelude.{◌≡◌};
ghost use Rattle.taps_app.specs.Frame as frame;

use taps_command::Status;

/// The status of messages that went through a chain.
pub fn status_if(whole: bool) -> Status
    ensures { result ≡ frame.status_if whole }
{
    if whole {
        Status::Done
    } else {
        Status::Exchange
    }
}
