ghost use Rattle.std.specs.Prelude.{◌≡◌};
ghost use Rattle.taps_property.specs.Kinds.{least, word};

/// What values a property takes.
#[derive(Clone, Copy, Debug, PartialEq, Eq)]
pub enum Kind {
    Preference,
    Flag,
    /// A number up to `MOST`.
    Number,
    /// A number up to `MOST` and not below the word's least, or no limit, which the word stands for.
    Limit(NoLimit),
    Multipath,
    Direction,
    Scheduler,
    Capacity,
    Policy,
    /// A state, which is only read.
    State,
    /// At most 8 entries with different names.
    Entries,
}

/// The word that stands for no limit.
#[derive(Clone, Copy, Debug, PartialEq, Eq)]
pub enum NoLimit {
    FullCoverage,
    Disabled,
    Unlimited,
    Infinite,
}

impl NoLimit {
    /// The word.
    pub fn word(self) -> &'static str
        ensures { result.now ≡ word self }
    {
        match self {
            NoLimit::FullCoverage => "full-coverage",
            NoLimit::Disabled => "disabled",
            NoLimit::Unlimited => "unlimited",
            NoLimit::Infinite => "infinite",
        }
    }

    /// The least number of a limit beside this word.
    pub fn least(self) -> u64
        ensures { result ≡ least self }
    {
        match self {
            NoLimit::FullCoverage => 0,
            NoLimit::Disabled => 1,
            NoLimit::Unlimited => 1,
            NoLimit::Infinite => 1,
        }
    }
}
