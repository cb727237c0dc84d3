ghost use Rattle.taps_memory.specs.WorkedMemory.{JudgesWorkedMemory};

// The definitions judge the worked histories as they are to be judged.
#[tactic(auto, using(crate::proofs::WorkedMemory::judged))]
pub fn judge_worked_memory()
    ensures { JudgesWorkedMemory }
{}
