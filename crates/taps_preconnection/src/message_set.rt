ghost use Rattle.std.specs.Prelude.{◌≡◌};
ghost use Rattle.taps_preconnection.specs.MessageSets.{no_set, applied};
ghost use Rattle.taps_preconnection.specs.PropertySets.{message_properties, set_message};

use crate::property_table::PropertySet;
use taps_property::{Capacity, MessageProps, NoLimit, PropError, PropValue, Property};

/// The properties that a file gives a message. None is one that it does not give.
#[derive(Clone, Copy, Debug)]
pub struct MessageSet {
    pub msg_lifetime: Option<Option<u64>>,
    pub msg_priority: Option<u64>,
    pub msg_ordered: Option<bool>,
    pub safely_replayable: Option<bool>,
    pub is_final: Option<bool>,
    pub msg_checksum_len: Option<Option<u64>>,
    pub msg_reliable: Option<bool>,
    pub msg_capacity_profile: Option<Capacity>,
    pub no_fragmentation: Option<bool>,
    pub no_segmentation: Option<bool>,
}

impl MessageSet {
    pub(crate) fn none() -> MessageSet
        ensures { result ≡ no_set }
    {
        MessageSet {
            msg_lifetime: None,
            msg_priority: None,
            msg_ordered: None,
            safely_replayable: None,
            is_final: None,
            msg_checksum_len: None,
            msg_reliable: None,
            msg_capacity_profile: None,
            no_fragmentation: None,
            no_segmentation: None,
        }
    }
}

impl PropertySet for MessageSet {
    ghost keys = { message_properties };

    ghost sets = { set_message };

    #[tactic(auto, unfolding(crate::specs::PropertySets::message_properties))]
    fn properties() -> &'static [Property] {
        MessageProps::properties()
    }

    #[tactic(auto, unfolding(crate::specs::PropertySets::set_message))]
    fn set_property(&mut self, name: &str, value: PropValue) -> Result<(), PropError> {
        match name {
            "msgLifetime" => self.msg_lifetime = Some(value.limit(NoLimit::Infinite)?),
            "msgPriority" => self.msg_priority = Some(value.number()?),
            "msgOrdered" => self.msg_ordered = Some(value.flag()?),
            "safelyReplayable" => self.safely_replayable = Some(value.flag()?),
            "final" => self.is_final = Some(value.flag()?),
            "msgChecksumLen" => self.msg_checksum_len = Some(value.limit(NoLimit::FullCoverage)?),
            "msgReliable" => self.msg_reliable = Some(value.flag()?),
            "msgCapacityProfile" => self.msg_capacity_profile = Some(value.capacity()?),
            "noFragmentation" => self.no_fragmentation = Some(value.flag()?),
            "noSegmentation" => self.no_segmentation = Some(value.flag()?),
            _ => return Err(PropError::UnknownProperty),
        }
        Ok(())
    }
}

/// The properties of a message, with each that the set gives in its place.
pub fn apply_set(props: MessageProps, set: &MessageSet) -> MessageProps
    ensures { result ≡ applied props set.now }
{
    MessageProps {
        msg_lifetime: set.msg_lifetime.unwrap_or(props.msg_lifetime),
        msg_priority: set.msg_priority.unwrap_or(props.msg_priority),
        msg_ordered: set.msg_ordered.unwrap_or(props.msg_ordered),
        safely_replayable: set.safely_replayable.unwrap_or(props.safely_replayable),
        is_final: set.is_final.unwrap_or(props.is_final),
        msg_checksum_len: set.msg_checksum_len.unwrap_or(props.msg_checksum_len),
        msg_reliable: set.msg_reliable.unwrap_or(props.msg_reliable),
        msg_capacity_profile: set
            .msg_capacity_profile
            .unwrap_or(props.msg_capacity_profile),
        no_fragmentation: set.no_fragmentation.unwrap_or(props.no_fragmentation),
        no_segmentation: set.no_segmentation.unwrap_or(props.no_segmentation),
    }
}
