// What is proved of every line of a plan and of a log.
ghost use Rattle.taps_log_laws.specs.Laws.{AnswersSay, CountsSay, ItemsSay, MessagesSay, OutcomesSay, PartsSay};
ghost use Rattle.taps_log_laws.specs.Laws.{LeafCountsSay, LeavesSay, LogsSay, PlansSay};
ghost use Rattle.taps_log_laws.specs.WholeTexts.{SessionsAreRead};

/// Each line that `taps_text` writes into a log is that of its entry, and is read as this entry.
pub fn vouch_lines()
    ensures items { ItemsSay }
    ensures answers { AnswersSay }
    ensures outcomes { OutcomesSay }
    ensures counts { CountsSay }
    ensures messages { MessagesSay }
    ensures parts { PartsSay }
{}

/// Each line of a plan is that of its entry, and is read as this entry.
pub fn vouch_plan_lines()
    ensures counts { LeafCountsSay }
    ensures leaves { LeavesSay }
{}

/// A plan and a log are the lines of their entries, one after the other, and nothing else; and where they are cut at the
/// ends of lines and each line is read, these entries come back.
pub fn vouch_texts()
    ensures plans { PlansSay }
    ensures logs { LogsSay }
    ensures sessions { SessionsAreRead }
{}
