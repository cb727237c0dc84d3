ghost use Rattle.taps_connection.specs.WorkedSends.{JudgesWorkedSends};

// The definitions judge the worked turns as they are to be judged.
#[tactic(auto, using(crate::proofs::WorkedSends::judged))]
pub fn judge_worked_sends()
    ensures { JudgesWorkedSends }
{}
