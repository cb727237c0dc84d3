ghost use Rattle.std.specs.Prelude.{◌≡◌};
ghost use Rattle.taps_preconnection.specs.Words.{preference_words, profile_words, multipath_words, direction_words, scheduler_words, capacity_words, policy_words, family_words};

use taps_endpoint::Family;
use taps_property::{Capacity, Direction, Multipath, Policy, Preference, Profile, Scheduler};
use taps_table::WordList;

/// The words of preferences.
#[derive(Clone, Copy, Drop)]
pub struct Preferences;

impl WordList for Preferences {
    type Value = Preference;

    ghost words = { preference_words };

    #[tactic(auto, unfolding(crate::specs::Words::preference_words))]
    fn words() -> &'static [(&'static str, Preference)] {
        &[
            ("require", Preference::Require),
            ("prefer", Preference::Prefer),
            ("no-preference", Preference::NoPreference),
            ("avoid", Preference::Avoid),
            ("prohibit", Preference::Prohibit),
        ]
    }
}

/// The words of profiles.
#[derive(Clone, Copy, Drop)]
pub struct Profiles;

impl WordList for Profiles {
    type Value = Profile;

    ghost words = { profile_words };

    #[tactic(auto, unfolding(crate::specs::Words::profile_words))]
    fn words() -> &'static [(&'static str, Profile)] {
        &[
            ("reliable-inorder-stream", Profile::ReliableInorderStream),
            ("reliable-message", Profile::ReliableMessage),
            ("unreliable-datagram", Profile::UnreliableDatagram),
        ]
    }
}

/// The words of multipath.
#[derive(Clone, Copy, Drop)]
pub struct Multipaths;

impl WordList for Multipaths {
    type Value = Multipath;

    ghost words = { multipath_words };

    #[tactic(auto, unfolding(crate::specs::Words::multipath_words))]
    fn words() -> &'static [(&'static str, Multipath)] {
        &[
            ("disabled", Multipath::Disabled),
            ("active", Multipath::Active),
            ("passive", Multipath::Passive),
        ]
    }
}

/// The words of directions.
#[derive(Clone, Copy, Drop)]
pub struct Directions;

impl WordList for Directions {
    type Value = Direction;

    ghost words = { direction_words };

    #[tactic(auto, unfolding(crate::specs::Words::direction_words))]
    fn words() -> &'static [(&'static str, Direction)] {
        &[
            ("bidirectional", Direction::Bidirectional),
            ("unidirectional-send", Direction::UnidirectionalSend),
            ("unidirectional-receive", Direction::UnidirectionalReceive),
        ]
    }
}

/// The words of schedulers.
#[derive(Clone, Copy, Drop)]
pub struct Schedulers;

impl WordList for Schedulers {
    type Value = Scheduler;

    ghost words = { scheduler_words };

    #[tactic(auto, unfolding(crate::specs::Words::scheduler_words))]
    fn words() -> &'static [(&'static str, Scheduler)] {
        &[
            ("weighted-fair-queueing", Scheduler::WeightedFairQueueing),
            ("first-come-first-served", Scheduler::FirstComeFirstServed),
        ]
    }
}

/// The words of capacity profiles.
#[derive(Clone, Copy, Drop)]
pub struct Capacities;

impl WordList for Capacities {
    type Value = Capacity;

    ghost words = { capacity_words };

    #[tactic(auto, unfolding(crate::specs::Words::capacity_words))]
    fn words() -> &'static [(&'static str, Capacity)] {
        &[
            ("default", Capacity::Default),
            ("scavenger", Capacity::Scavenger),
            ("low-latency-interactive", Capacity::LowLatencyInteractive),
            (
                "low-latency-non-interactive",
                Capacity::LowLatencyNonInteractive,
            ),
            ("constant-rate-streaming", Capacity::ConstantRateStreaming),
            ("capacity-seeking", Capacity::CapacitySeeking),
        ]
    }
}

/// The words of multipath policies.
#[derive(Clone, Copy, Drop)]
pub struct Policies;

impl WordList for Policies {
    type Value = Policy;

    ghost words = { policy_words };

    #[tactic(auto, unfolding(crate::specs::Words::policy_words))]
    fn words() -> &'static [(&'static str, Policy)] {
        &[
            ("handover", Policy::Handover),
            ("interactive", Policy::Interactive),
            ("aggregate", Policy::Aggregate),
        ]
    }
}

/// The words of address families.
#[derive(Clone, Copy, Drop)]
pub struct Families;

impl WordList for Families {
    type Value = Family;

    ghost words = { family_words };

    #[tactic(auto, unfolding(crate::specs::Words::family_words))]
    fn words() -> &'static [(&'static str, Family)] {
        &[
            ("inet4", Family::Inet4),
            ("inet6", Family::Inet6),
            ("unix", Family::Unix),
        ]
    }
}
