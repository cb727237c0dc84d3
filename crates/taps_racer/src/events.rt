ghost use Rattle.std.specs.Prelude.{◌≡◌, ◌++◌, ◌∷◌, ◌-◌, ◌≤◌, [], OnOk, OnErr, if◌then◌else◌};
ghost use Rattle.taps_racer.specs.Steps.{is_used, heard, heard_all, used_of};
ghost use Rattle.taps_racer.specs.Telling.{TellsAll, StaysOver};

use crate::{Racer, Racing, Told};
use taps_base::{List, NoMemory};

/// Tells the events in order, and adds to `used` those that were used. Without memory nothing is told.
pub fn tell_all(
    racer: &mut Racer<Racing>,
    events: &[Told],
    used: &mut List<Told>,
) -> Result<(), NoMemory>
    ensures told { OnOk result (TellsAll racer.old racer.new events.now used.old.items used.new.items) }
    ensures over { OnOk result (StaysOver racer.old racer.new used.old.items used.new.items) }
    ensures err { OnErr result ((racer.new ≡ racer.old) × (used.new ≡ used.old)) }
{
    tell_each(racer, events, used)?;
    Ok(())
}

fn tell_each(
    racer: &mut Racer<Racing>,
    events: &[Told],
    used: &mut List<Told>,
) -> Result<(), NoMemory>
    ensures racer { OnOk result (racer.new ≡ heard_all racer.old events.now) }
    ensures used { OnOk result (used.new.items ≡ used.old.items ++ used_of racer.old events.now) }
    ensures err { OnErr result ((racer.new ≡ racer.old) × (used.new ≡ used.old)) }
{
    used.reserve(events.len())?;
    for event in events {
        tell_one(racer, *event, used);
    }
    Ok(())
}

fn tell_one(racer: &mut Racer<Racing>, event: Told, used: &mut List<Told>)
    requires { 1 ≤ used.old.spare }
    ensures racer { racer.new ≡ heard racer.old event }
    ensures items { used.new.items ≡
        (if is_used racer.old event then used.old.items ++ event ∷ [] else used.old.items) }
    ensures room { used.old.spare - 1 ≤ used.new.spare }
{
    if racer.tell(event) {
        match used.push(event) {
            Ok(()) => {}
            Err(_) => unreachable!(),
        }
    }
}
