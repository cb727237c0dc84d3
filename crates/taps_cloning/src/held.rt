use taps_group_exchange::{GroupOutcome, Told};

/// How the session of a group went behind its first race: its outcome, and what each member sent and
/// heard, by place.
#[derive(Debug, Drop)]
pub struct HeldGroup {
    pub outcome: GroupOutcome,
    pub members: Vec<Told>,
}
