/// A property that a protocol stack offers or does not (RFC 9622 section 6.2).
#[derive(Clone, Copy, Debug, PartialEq, Eq)]
pub enum StackProperty {
    Reliability,
    PreserveMsgBoundaries,
    PerMsgReliability,
    PreserveOrder,
    ZeroRttMsg,
    Multistreaming,
    FullChecksumSend,
    FullChecksumRecv,
    CongestionControl,
    KeepAlive,
    SoftErrorNotify,
    ActiveReadBeforeSend,
}

impl StackProperty {
    /// All of them, in the order of a selection's preferences.
    pub const ALL: [StackProperty; 12] = [
        StackProperty::Reliability,
        StackProperty::PreserveMsgBoundaries,
        StackProperty::PerMsgReliability,
        StackProperty::PreserveOrder,
        StackProperty::ZeroRttMsg,
        StackProperty::Multistreaming,
        StackProperty::FullChecksumSend,
        StackProperty::FullChecksumRecv,
        StackProperty::CongestionControl,
        StackProperty::KeepAlive,
        StackProperty::SoftErrorNotify,
        StackProperty::ActiveReadBeforeSend,
    ];
}
