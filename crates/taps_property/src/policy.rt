/// How a connection would use several paths (RFC 9622 section 8.1.7).
#[derive(Clone, Copy, Debug, PartialEq, Eq)]
pub enum Policy {
    Handover,
    Interactive,
    Aggregate,
}
