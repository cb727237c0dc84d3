ghost use Rattle.taps_group.specs.WorkedGroups.{JudgesWorkedGroups};

// The definition judges the worked groups as they are to be judged.
#[tactic(auto, using(crate::proofs::WorkedGroups::judged))]
pub fn judge_worked_groups()
    ensures { JudgesWorkedGroups }
{}
