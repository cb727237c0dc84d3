ghost use Rattle.taps_listening.specs.WorkedListening.{JudgesWorkedListening};

// The definitions judge the worked sessions as they are to be judged.
#[tactic(auto, using(crate::proofs::WorkedListening::judged))]
pub fn judge_worked_listening()
    ensures { JudgesWorkedListening }
{}
