// The properties of a group's members.
ghost use Rattle.std.specs.Prelude.{◌≡◌, ◌<◌, length};
ghost use Rattle.taps_property.specs.Connections.{connection_table};
ghost use Rattle.taps_property.specs.Properties.{value_in};
ghost use Rattle.taps_group.specs.Groups.{IsSet, IsSoundGroup};
ghost use Rattle.taps_group.specs.Places.{IsAt};
ghost use Rattle.taps_group.specs.Properties.{with_priority, most_members};

use crate::group::Group;
use taps_framer::Framer;
use taps_property::{ConnectionProps, PropError, PropValue};

// The most members of a group that sets no limit.
const MOST_MEMBERS: u64 = 16;

impl<'a> Group<'a> {
    /// Sets the property of this name for all members, or their priority for the one member alone.
    pub fn set(&mut self, member: u32, name: &str, value: PropValue) -> Result<(), PropError>
        requires { member < length self.old.members.items }
        ensures set { IsSet member name.now value self.old result self.new }
        ensures sound { IsSoundGroup ⟦<dyn Framer as Framer>⟧ self.old →
            IsSoundGroup ⟦<dyn Framer as Framer>⟧ self.new }
    {
        let mut props = self.props_of(member);
        match props.set(name, value) {
            Ok(()) => {
                self.members[member as usize].priority = props.conn_priority;
                self.props = props;
                Ok(())
            }
            Err(refusal) => Err(refusal),
        }
    }

    /// The value of a member's property of this name.
    pub fn get(&self, member: u32, name: &str) -> Result<PropValue, PropError>
        requires { member < length self.now.members.items }
        ensures { IsAt self.now.members.items member (λ m.
            result ≡ value_in connection_table (with_priority m.priority self.now.props) name.now) }
    {
        self.props_of(member).get(name)
    }

    // The properties of a member.
    fn props_of(&self, member: u32) -> ConnectionProps
        requires { member < length self.now.members.items }
        ensures { IsAt self.now.members.items member (λ m. result ≡ with_priority m.priority self.now.props) }
    {
        ConnectionProps {
            conn_priority: self.members[member as usize].priority,
            ..self.props
        }
    }

    // How many members there may be.
    pub(crate) fn limit(&self) -> u64
        ensures { result ≡ most_members self.now.props }
    {
        match self.props.group_conn_limit {
            Some(limit) => MOST_MEMBERS.min(limit),
            None => MOST_MEMBERS,
        }
    }
}
