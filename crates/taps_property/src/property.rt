use crate::Kind;

/// A property that can be set: its name, and what values it takes.
#[derive(Clone, Copy, Debug)]
pub struct Property(pub &'static str, pub Kind);
