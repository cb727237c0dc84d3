use taps_base::Body;

/// What a member of a group sent and heard: how many messages, and which.
#[derive(Debug, Drop)]
pub struct Told {
    pub sent: u64,
    pub heard: Vec<Body>,
}
