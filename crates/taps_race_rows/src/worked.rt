ghost use Rattle.taps_endpoint.specs.declared.address.Address.{Address};
ghost use Rattle.taps_stack.specs.declared.target.Target.{Target};
ghost use Rattle.taps_socket.specs.WorkedCalls.{JudgesWorkedCalls};
ghost use Rattle.taps_socket.specs.WorkedRaces.{JudgesWorkedRaces};
ghost use Rattle.taps_race_rows.specs.WorkedScripts.{JudgesWorkedScripts};

/// Nothing: its clause says that the definitions find the worked races lawful, and the wrong ones
/// not.
pub fn judge_worked_races()
    ensures { (a b c : Target) → JudgesWorkedRaces a b c }
{}

/// Nothing: its clause says the same of the worked histories of calls.
pub fn judge_worked_calls()
    ensures { (address : Address) → JudgesWorkedCalls address }
{}

/// Nothing: its clause says that the definitions answer the worked sends and receives by scripts as
/// they are to be answered.
pub fn judge_worked_scripts()
    ensures { JudgesWorkedScripts }
{}
