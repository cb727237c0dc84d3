ghost use Rattle.taps_exchange.specs.WorkedExchanges.{JudgesWorkedExchanges};

// The definitions judge the worked exchanges as they are to be judged.
#[tactic(auto, using(crate::proofs::WorkedExchanges::judged))]
pub fn judge_worked_exchanges()
    ensures { JudgesWorkedExchanges }
{}
