ghost use Rattle.std.specs.Prelude.{◌≡◌};
ghost use Rattle.taps_property.specs.Preferences as spec;

/// How much an application wants a property (RFC 9622 section 6.2).
#[derive(Clone, Copy, Debug, PartialEq, Eq)]
pub enum Preference {
    Require,
    Prefer,
    NoPreference,
    Avoid,
    Prohibit,
}

/// Whether an offer may be used: a required property is there, and a prohibited one is not.
pub fn is_met(preference: Preference, offered: bool) -> bool
    ensures { result ≡ spec.is_met preference offered }
{
    match preference {
        Preference::Require => offered,
        Preference::Prohibit => !offered,
        Preference::Prefer | Preference::NoPreference | Preference::Avoid => true,
    }
}

/// Whether an offer may be used but is not what is wanted: a preferred property is missing, or one
/// to avoid is there.
pub fn is_soft_unmet(preference: Preference, offered: bool) -> bool
    ensures { result ≡ spec.is_soft_unmet preference offered }
{
    match preference {
        Preference::Prefer => !offered,
        Preference::Avoid => offered,
        Preference::Require | Preference::NoPreference | Preference::Prohibit => false,
    }
}
