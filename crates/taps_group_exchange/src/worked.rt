ghost use Rattle.taps_message.specs.declared.message.Message.{Message};
ghost use Rattle.taps_property.specs.declared.connection_props.ConnectionProps.{ConnectionProps};
ghost use Rattle.taps_property.specs.declared.message_props.MessageProps.{MessageProps};
ghost use Rattle.taps_stack.specs.declared.target.Target.{Target};
ghost use Rattle.taps_group_exchange.specs.WorkedGroupSessions.{JudgesWorkedGroups};

// The definitions judge the worked sessions of groups as they are to be judged.
#[tactic(auto, using(crate::proofs::WorkedGroupSessions::judged))]
pub fn judge_worked_groups()
    ensures { (t : Target) (p : ConnectionProps) (m : MessageProps) → JudgesWorkedGroups t p m }
{}
