ghost use Rattle.std.specs.Prelude.{◌≡◌, OnOk};
ghost use Rattle.taps_property.specs.Properties.{value_in, set_in, Becomes, KeepsOthers, settings, keys, listed_keys};
ghost use Rattle.taps_property.specs.Messages.{message_table, default_message};

use crate::{Capacity, Kind, NoLimit, PropError, PropValue, Property};

/// The properties of a message (RFC 9622 section 9.1.3).
#[derive(Clone, Copy, Debug)]
pub struct MessageProps {
    /// In milliseconds.
    pub msg_lifetime: Option<u64>,
    pub msg_priority: u64,
    pub msg_ordered: bool,
    pub safely_replayable: bool,
    pub is_final: bool,
    pub msg_checksum_len: Option<u64>,
    pub msg_reliable: bool,
    pub msg_capacity_profile: Capacity,
    pub no_fragmentation: bool,
    pub no_segmentation: bool,
}

impl MessageProps {
    /// All of them, in order.
    pub fn properties() -> &'static [Property]
        ensures { listed_keys result.now ≡ keys (settings message_table) }
    {
        &[
            Property("msgLifetime", Kind::Limit(NoLimit::Infinite)),
            Property("msgPriority", Kind::Number),
            Property("msgOrdered", Kind::Flag),
            Property("safelyReplayable", Kind::Flag),
            Property("final", Kind::Flag),
            Property("msgChecksumLen", Kind::Limit(NoLimit::FullCoverage)),
            Property("msgReliable", Kind::Flag),
            Property("msgCapacityProfile", Kind::Capacity),
            Property("noFragmentation", Kind::Flag),
            Property("noSegmentation", Kind::Flag),
        ]
    }

    /// What a message has where an application says nothing: whether its stack preserves order and
    /// is reliable, its connection's capacity profile, and whether messages may be replayed.
    pub fn defaults(
        ordered: bool,
        reliable: bool,
        capacity: Capacity,
        replayable: bool,
    ) -> MessageProps
        ensures { result ≡ default_message ordered reliable capacity replayable }
    {
        MessageProps {
            msg_lifetime: None,
            msg_priority: 100,
            msg_ordered: ordered,
            safely_replayable: replayable,
            is_final: false,
            msg_checksum_len: None,
            msg_reliable: reliable,
            msg_capacity_profile: capacity,
            no_fragmentation: false,
            no_segmentation: false,
        }
    }

    /// Sets the property of this name, and no other.
    pub fn set(&mut self, name: &str, value: PropValue) -> Result<(), PropError>
        ensures set { Becomes result self.old self.new (set_in (settings message_table) self.old name.now value) }
        ensures told { OnOk result (value_in message_table self.new name.now ≡ Ok value) }
        ensures others { KeepsOthers message_table self.old self.new name.now }
    {
        match name {
            "msgLifetime" => self.msg_lifetime = value.limit(NoLimit::Infinite)?,
            "msgPriority" => self.msg_priority = value.number()?,
            "msgOrdered" => self.msg_ordered = value.flag()?,
            "safelyReplayable" => self.safely_replayable = value.flag()?,
            "final" => self.is_final = value.flag()?,
            "msgChecksumLen" => self.msg_checksum_len = value.limit(NoLimit::FullCoverage)?,
            "msgReliable" => self.msg_reliable = value.flag()?,
            "msgCapacityProfile" => self.msg_capacity_profile = value.capacity()?,
            "noFragmentation" => self.no_fragmentation = value.flag()?,
            "noSegmentation" => self.no_segmentation = value.flag()?,
            _ => return Err(PropError::UnknownProperty),
        }
        Ok(())
    }

    /// The value of the property of this name.
    pub fn get(&self, name: &str) -> Result<PropValue, PropError>
        ensures { result ≡ value_in message_table self.now name.now }
    {
        match name {
            "msgLifetime" => Ok(PropValue::Limit(self.msg_lifetime)),
            "msgPriority" => Ok(PropValue::Number(self.msg_priority)),
            "msgOrdered" => Ok(PropValue::Flag(self.msg_ordered)),
            "safelyReplayable" => Ok(PropValue::Flag(self.safely_replayable)),
            "final" => Ok(PropValue::Flag(self.is_final)),
            "msgChecksumLen" => Ok(PropValue::Limit(self.msg_checksum_len)),
            "msgReliable" => Ok(PropValue::Flag(self.msg_reliable)),
            "msgCapacityProfile" => Ok(PropValue::Capacity(self.msg_capacity_profile)),
            "noFragmentation" => Ok(PropValue::Flag(self.no_fragmentation)),
            "noSegmentation" => Ok(PropValue::Flag(self.no_segmentation)),
            _ => Err(PropError::UnknownProperty),
        }
    }
}
