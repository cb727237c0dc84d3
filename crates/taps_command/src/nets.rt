ghost use Rattle.std.specs.Prelude.{◌≡◌};
ghost use Rattle.taps_command.specs.Nets.{HasRun};

use taps_socket::Sockets;

/// Nothing: its clause says that sockets become themselves by no call.
pub fn vouch_untouched<N: Sockets>(net: &N)
    ensures { HasRun N.Becomes net.now net.now (N.net net.now) (N.net net.now) (λ old new. new ≡ old) }
{
    let _ = net;
}
