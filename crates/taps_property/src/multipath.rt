/// Whether several paths may be used at once (RFC 9622 section 6.2.14).
#[derive(Clone, Copy, Debug, PartialEq, Eq)]
pub enum Multipath {
    Disabled,
    Active,
    Passive,
}
