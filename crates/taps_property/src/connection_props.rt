ghost use Rattle.std.specs.Prelude.{◌≡◌, OnOk};
ghost use Rattle.taps_property.specs.Properties.{value_in, set_in, Becomes, KeepsOthers, settings, keys, listed_keys};
ghost use Rattle.taps_property.specs.Connections.{connection_settings, connection_table, default_connection};

use crate::{
    Capacity, ConnState, Kind, NoLimit, Policy, PropError, PropValue, Property, Scheduler,
};

/// The properties of a connection (RFC 9622 section 8.1).
#[derive(Clone, Copy, Debug)]
pub struct ConnectionProps {
    pub recv_checksum_len: Option<u64>,
    pub conn_priority: u64,
    pub conn_timeout: Option<u64>,
    pub keep_alive_timeout: Option<u64>,
    pub conn_scheduler: Scheduler,
    pub conn_capacity_profile: Capacity,
    pub multipath_policy: Policy,
    pub min_send_rate: Option<u64>,
    pub min_recv_rate: Option<u64>,
    pub max_send_rate: Option<u64>,
    pub max_recv_rate: Option<u64>,
    pub group_conn_limit: Option<u64>,
    pub isolate_session: bool,
    pub conn_state: ConnState,
}

impl ConnectionProps {
    /// Those that can be set, in order.
    pub fn properties() -> &'static [Property]
        ensures { listed_keys result.now ≡ keys (settings connection_settings) }
    {
        &[
            Property("recvChecksumLen", Kind::Limit(NoLimit::FullCoverage)),
            Property("connPriority", Kind::Number),
            Property("connTimeout", Kind::Limit(NoLimit::Disabled)),
            Property("keepAliveTimeout", Kind::Limit(NoLimit::Disabled)),
            Property("connScheduler", Kind::Scheduler),
            Property("connCapacityProfile", Kind::Capacity),
            Property("multipathPolicy", Kind::Policy),
            Property("minSendRate", Kind::Limit(NoLimit::Unlimited)),
            Property("minRecvRate", Kind::Limit(NoLimit::Unlimited)),
            Property("maxSendRate", Kind::Limit(NoLimit::Unlimited)),
            Property("maxRecvRate", Kind::Limit(NoLimit::Unlimited)),
            Property("groupConnLimit", Kind::Limit(NoLimit::Unlimited)),
            Property("isolateSession", Kind::Flag),
        ]
    }

    /// What a connection has where an application says nothing.
    pub fn defaults() -> ConnectionProps
        ensures { result ≡ default_connection }
    {
        ConnectionProps {
            recv_checksum_len: None,
            conn_priority: 100,
            conn_timeout: None,
            keep_alive_timeout: None,
            conn_scheduler: Scheduler::WeightedFairQueueing,
            conn_capacity_profile: Capacity::Default,
            multipath_policy: Policy::Handover,
            min_send_rate: None,
            min_recv_rate: None,
            max_send_rate: None,
            max_recv_rate: None,
            group_conn_limit: None,
            isolate_session: false,
            conn_state: ConnState::Establishing,
        }
    }

    /// Sets the property of this name, and no other.
    pub fn set(&mut self, name: &str, value: PropValue) -> Result<(), PropError>
        ensures set { Becomes result self.old self.new (set_in (settings connection_table) self.old name.now value) }
        ensures told { OnOk result (value_in connection_table self.new name.now ≡ Ok value) }
        ensures others { KeepsOthers connection_table self.old self.new name.now }
    {
        match name {
            "recvChecksumLen" => self.recv_checksum_len = value.limit(NoLimit::FullCoverage)?,
            "connPriority" => self.conn_priority = value.number()?,
            "connTimeout" => self.conn_timeout = value.limit(NoLimit::Disabled)?,
            "keepAliveTimeout" => self.keep_alive_timeout = value.limit(NoLimit::Disabled)?,
            "connScheduler" => self.conn_scheduler = value.scheduler()?,
            "connCapacityProfile" => self.conn_capacity_profile = value.capacity()?,
            "multipathPolicy" => self.multipath_policy = value.policy()?,
            "minSendRate" => self.min_send_rate = value.limit(NoLimit::Unlimited)?,
            "minRecvRate" => self.min_recv_rate = value.limit(NoLimit::Unlimited)?,
            "maxSendRate" => self.max_send_rate = value.limit(NoLimit::Unlimited)?,
            "maxRecvRate" => self.max_recv_rate = value.limit(NoLimit::Unlimited)?,
            "groupConnLimit" => self.group_conn_limit = value.limit(NoLimit::Unlimited)?,
            "isolateSession" => self.isolate_session = value.flag()?,
            "connState" => return Err(PropError::ReadOnly),
            _ => return Err(PropError::UnknownProperty),
        }
        Ok(())
    }

    /// The value of the property of this name.
    pub fn get(&self, name: &str) -> Result<PropValue, PropError>
        ensures { result ≡ value_in connection_table self.now name.now }
    {
        match name {
            "recvChecksumLen" => Ok(PropValue::Limit(self.recv_checksum_len)),
            "connPriority" => Ok(PropValue::Number(self.conn_priority)),
            "connTimeout" => Ok(PropValue::Limit(self.conn_timeout)),
            "keepAliveTimeout" => Ok(PropValue::Limit(self.keep_alive_timeout)),
            "connScheduler" => Ok(PropValue::Scheduler(self.conn_scheduler)),
            "connCapacityProfile" => Ok(PropValue::Capacity(self.conn_capacity_profile)),
            "multipathPolicy" => Ok(PropValue::Policy(self.multipath_policy)),
            "minSendRate" => Ok(PropValue::Limit(self.min_send_rate)),
            "minRecvRate" => Ok(PropValue::Limit(self.min_recv_rate)),
            "maxSendRate" => Ok(PropValue::Limit(self.max_send_rate)),
            "maxRecvRate" => Ok(PropValue::Limit(self.max_recv_rate)),
            "groupConnLimit" => Ok(PropValue::Limit(self.group_conn_limit)),
            "isolateSession" => Ok(PropValue::Flag(self.isolate_session)),
            "connState" => Ok(PropValue::State(self.conn_state)),
            _ => Err(PropError::UnknownProperty),
        }
    }
}
