/// What a connection or a message wants of the path's capacity (RFC 9622 section 8.1.6).
#[derive(Clone, Copy, Debug, PartialEq, Eq)]
pub enum Capacity {
    Default,
    Scavenger,
    LowLatencyInteractive,
    LowLatencyNonInteractive,
    ConstantRateStreaming,
    CapacitySeeking,
}
