ghost use Rattle.std.specs.Prelude.{◌≡◌, OnOk, ◌≢◌, IsTrue, Ok, Err};
ghost use Rattle.taps_base.specs.Lists.{filled};
ghost use Rattle.taps_property.specs.Properties.{value_in, bare, set_in, Becomes, KeepsOthers, settings, keys, listed_keys};
ghost use Rattle.taps_property.specs.Selections.{selection_table, is_collection, preference_for, with_preference, default_preferences, default_temporary, default_multipath, default_selection, with_profile};

use crate::entry::copy_of;
use crate::{
    Direction, Entry, Kind, Multipath, Preference, Profile, PropError, PropValue, Property, Role,
    StackProperty,
};
use std::alloc::Global;
use taps_base::List;

/// What an application asks of the stack and the path that carry its connection (RFC 9622 section
/// 6.2).
#[derive(Drop)]
pub struct Selection {
    /// A preference for each `StackProperty`, in the order of `StackProperty::ALL`.
    pub stack: [Preference; 12],
    pub interface: List<Entry>,
    pub pvd: List<Entry>,
    /// For a temporary local address.
    pub temporary: Preference,
    pub multipath: Multipath,
    pub advertises_altaddr: bool,
    pub direction: Direction,
}

impl Selection {
    /// All of them, in order.
    pub fn properties() -> &'static [Property]
        ensures { listed_keys result.now ≡ keys (settings selection_table) }
    {
        &[
            Property("reliability", Kind::Preference),
            Property("preserveMsgBoundaries", Kind::Preference),
            Property("perMsgReliability", Kind::Preference),
            Property("preserveOrder", Kind::Preference),
            Property("zeroRttMsg", Kind::Preference),
            Property("multistreaming", Kind::Preference),
            Property("fullChecksumSend", Kind::Preference),
            Property("fullChecksumRecv", Kind::Preference),
            Property("congestionControl", Kind::Preference),
            Property("keepAlive", Kind::Preference),
            Property("interface", Kind::Entries),
            Property("pvd", Kind::Entries),
            Property("useTemporaryLocalAddress", Kind::Preference),
            Property("multipath", Kind::Multipath),
            Property("advertisesAltaddr", Kind::Flag),
            Property("direction", Kind::Direction),
            Property("softErrorNotify", Kind::Preference),
            Property("activeReadBeforeSend", Kind::Preference),
        ]
    }

    /// What is asked where an application says nothing. It takes no memory.
    pub fn defaults(alloc: Global, role: Role) -> Selection
        ensures { result ≡ default_selection role }
    {
        Selection {
            stack: default_preferences(),
            interface: List::new(alloc),
            pvd: List::new(alloc),
            temporary: default_temporary(role),
            multipath: default_multipath(role),
            advertises_altaddr: false,
            direction: Direction::Bidirectional,
        }
    }

    /// Asks of the stack what the profile asks, and leaves all other properties.
    pub fn apply_profile(&mut self, profile: Profile)
        ensures { self.new ≡ with_profile profile self.old }
    {
        let (relied_on, controlled, bounded) = match profile {
            Profile::ReliableInorderStream => (
                Preference::Require,
                Preference::Require,
                Preference::NoPreference,
            ),
            Profile::ReliableMessage => (
                Preference::Require,
                Preference::Require,
                Preference::Require,
            ),
            Profile::UnreliableDatagram => (
                Preference::Avoid,
                Preference::NoPreference,
                Preference::Require,
            ),
        };
        self.put(StackProperty::Reliability, relied_on);
        self.put(StackProperty::PreserveOrder, relied_on);
        self.put(StackProperty::CongestionControl, controlled);
        self.put(StackProperty::PreserveMsgBoundaries, bounded);
    }

    /// The preference for this property of stacks.
    pub fn preference(&self, property: StackProperty) -> Preference
        ensures { result ≡ preference_for property self.now }
    {
        self.stack[property as usize]
    }

    fn put(&mut self, property: StackProperty, preference: Preference)
        ensures { self.new ≡ with_preference property preference self.old }
    {
        self.stack[property as usize] = preference;
    }

    /// Sets the property of this name, and no other.
    pub fn set(&mut self, name: &str, value: PropValue) -> Result<(), PropError>
        ensures set { Becomes result self.old self.new (set_in (settings selection_table) self.old name.now value) }
        ensures told { OnOk result (value_in selection_table self.new name.now ≡ Ok (bare value)) }
        ensures others { KeepsOthers selection_table self.old self.new name.now }
    {
        match name {
            "reliability" => self.put(StackProperty::Reliability, value.preference()?),
            "preserveMsgBoundaries" => self.put(
                StackProperty::PreserveMsgBoundaries,
                value.preference()?,
            ),
            "perMsgReliability" => self.put(StackProperty::PerMsgReliability, value.preference()?),
            "preserveOrder" => self.put(StackProperty::PreserveOrder, value.preference()?),
            "zeroRttMsg" => self.put(StackProperty::ZeroRttMsg, value.preference()?),
            "multistreaming" => self.put(StackProperty::Multistreaming, value.preference()?),
            "fullChecksumSend" => self.put(StackProperty::FullChecksumSend, value.preference()?),
            "fullChecksumRecv" => self.put(StackProperty::FullChecksumRecv, value.preference()?),
            "congestionControl" => self.put(StackProperty::CongestionControl, value.preference()?),
            "keepAlive" => self.put(StackProperty::KeepAlive, value.preference()?),
            "interface" => self.interface = value.entries()?,
            "pvd" => self.pvd = value.entries()?,
            "useTemporaryLocalAddress" => self.temporary = value.preference()?,
            "multipath" => self.multipath = value.multipath()?,
            "advertisesAltaddr" => self.advertises_altaddr = value.flag()?,
            "direction" => self.direction = value.direction()?,
            "softErrorNotify" => self.put(StackProperty::SoftErrorNotify, value.preference()?),
            "activeReadBeforeSend" => self.put(
                StackProperty::ActiveReadBeforeSend,
                value.preference()?,
            ),
            _ => return Err(PropError::UnknownProperty),
        }
        Ok(())
    }

    /// The value of the property of this name. Only a collection takes memory.
    pub fn get(&self, name: &str) -> Result<PropValue, PropError>
        ensures value { result ≢ Err PropError.NoMemory → result ≡ value_in selection_table self.now name.now }
        ensures memory { result ≡ Err PropError.NoMemory → IsTrue (is_collection name.now) }
    {
        match name {
            "reliability" => Ok(PropValue::Pref(self.preference(StackProperty::Reliability))),
            "preserveMsgBoundaries" => Ok(PropValue::Pref(self.preference(
                StackProperty::PreserveMsgBoundaries,
            ))),
            "perMsgReliability" => Ok(PropValue::Pref(self.preference(
                StackProperty::PerMsgReliability,
            ))),
            "preserveOrder" => Ok(PropValue::Pref(self.preference(StackProperty::PreserveOrder))),
            "zeroRttMsg" => Ok(PropValue::Pref(self.preference(StackProperty::ZeroRttMsg))),
            "multistreaming" => Ok(PropValue::Pref(self.preference(StackProperty::Multistreaming))),
            "fullChecksumSend" => Ok(PropValue::Pref(self.preference(
                StackProperty::FullChecksumSend,
            ))),
            "fullChecksumRecv" => Ok(PropValue::Pref(self.preference(
                StackProperty::FullChecksumRecv,
            ))),
            "congestionControl" => Ok(PropValue::Pref(self.preference(
                StackProperty::CongestionControl,
            ))),
            "keepAlive" => Ok(PropValue::Pref(self.preference(StackProperty::KeepAlive))),
            "interface" => entries_told(&self.interface),
            "pvd" => entries_told(&self.pvd),
            "useTemporaryLocalAddress" => Ok(PropValue::Pref(self.temporary)),
            "multipath" => Ok(PropValue::Multipath(self.multipath)),
            "advertisesAltaddr" => Ok(PropValue::Flag(self.advertises_altaddr)),
            "direction" => Ok(PropValue::Direction(self.direction)),
            "softErrorNotify" => Ok(PropValue::Pref(self.preference(
                StackProperty::SoftErrorNotify,
            ))),
            "activeReadBeforeSend" => Ok(PropValue::Pref(self.preference(
                StackProperty::ActiveReadBeforeSend,
            ))),
            _ => Err(PropError::UnknownProperty),
        }
    }
}

fn entries_told(entries: &List<Entry>) -> Result<PropValue, PropError>
    ensures { result ≢ Err PropError.NoMemory → result ≡ Ok (PropValue.Entries (filled entries.now.items)) }
{
    match copy_of(entries) {
        Ok(copies) => Ok(PropValue::Entries(copies)),
        Err(_) => Err(PropError::NoMemory),
    }
}

fn default_preferences() -> [Preference; 12]
    ensures { result ≡ default_preferences }
{
    [
        Preference::Require,
        Preference::NoPreference,
        Preference::NoPreference,
        Preference::Require,
        Preference::NoPreference,
        Preference::Prefer,
        Preference::Require,
        Preference::Require,
        Preference::Require,
        Preference::NoPreference,
        Preference::NoPreference,
        Preference::NoPreference,
    ]
}

fn default_temporary(role: Role) -> Preference
    ensures { result ≡ default_temporary role }
{
    match role {
        Role::Initiate => Preference::Prefer,
        Role::Listen | Role::Rendezvous => Preference::Avoid,
    }
}

fn default_multipath(role: Role) -> Multipath
    ensures { result ≡ default_multipath role }
{
    match role {
        Role::Listen => Multipath::Passive,
        Role::Initiate | Role::Rendezvous => Multipath::Disabled,
    }
}
