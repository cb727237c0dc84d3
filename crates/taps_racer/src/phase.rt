ghost use Rattle.taps_racer.specs.Kept.{Kept, IsFresh};
ghost use Rattle.taps_racer.specs.Commands.{command_of, IsFinish};

/// The phases of a racer, and what a racer in each has for sure.
pub trait Phase {
    ghost HasPhase: { Kept → Type 0 };
}

/// Its race has not begun.
#[derive(Drop)]
pub struct Unstarted;

/// Its race goes on.
#[derive(Drop)]
pub struct Racing;

/// Its race has its answer.
#[derive(Drop)]
pub struct Ended;

impl Phase for Unstarted {
    ghost HasPhase = { IsFresh };
}

impl Phase for Racing {
    ghost HasPhase = { λ kept. Unit {0} };
}

impl Phase for Ended {
    ghost HasPhase = { λ kept. IsFinish (command_of kept) };
}
