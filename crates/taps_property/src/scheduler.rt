/// How the connections of a group share the path (RFC 9622 section 8.1.5).
#[derive(Clone, Copy, Debug, PartialEq, Eq)]
pub enum Scheduler {
    WeightedFairQueueing,
    FirstComeFirstServed,
}
