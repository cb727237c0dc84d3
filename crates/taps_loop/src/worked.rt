ghost use Rattle.taps_loop.specs.WorkedLoops.{JudgesWorkedLoops};

// The definitions judge the worked exchanges as they are to be judged.
#[tactic(auto, using(crate::proofs::WorkedLoops::judged))]
pub fn judge_worked_loops()
    ensures { JudgesWorkedLoops }
{}
