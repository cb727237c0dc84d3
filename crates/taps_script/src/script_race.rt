ghost use Rattle.taps_script.specs.OneRace.{GoesOneWay};
ghost use Rattle.taps_script.specs.SomeRace.{GoesOnFrom};

use crate::ScriptSockets;

/// Nothing: its clauses say that a script determines its race, behind any earlier calls, and that it
/// admits one after all calls that the sockets answered, where no socket is pending.
pub fn vouch_for_script(sockets: &ScriptSockets)
    ensures one_way { GoesOneWay sockets.now.lines }
    ensures some { GoesOnFrom sockets.now }
{
    sockets.vouch();
}
