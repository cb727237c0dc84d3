// One answer from another: of a run from the first byte, and of a run over one byte.
ghost use Rattle.std.specs.Prelude.{◌≡◌};
ghost use Rattle.taps_frames.specs.Runs.{seen_by, sight_by};

use taps_framer::{Run, Seen, Sight};

/// What is seen with the one byte that a run looked at.
pub(crate) fn seen_of(run: Run) -> Seen
    ensures { result ≡ seen_by run }
{
    match run {
        Run::More(scan) => Seen::More(scan),
        Run::Whole { .. } => Seen::Whole,
        Run::Bad { .. } => Seen::Bad,
    }
}

/// What stands at the start of a buffer that a run looked at from its first byte.
pub(crate) fn sight_of(run: Run) -> Sight
    ensures { result ≡ sight_by run }
{
    match run {
        Run::More(_) => Sight::Need,
        Run::Whole { used } => Sight::Whole { used },
        Run::Bad { place } => Sight::Bad { place },
    }
}
