ghost use Rattle.std.specs.Prelude.{◌≡◌};
ghost use Rattle.toml.specs.View.{table_view};
ghost use Rattle.taps_table.specs.Refusals.{Gives};
ghost use Rattle.taps_preconnection.specs.Words.{mode_words};
ghost use Rattle.taps_preconnection.specs.Race.{race_at, default_race};

use std::alloc::Global;
use taps_table::{FromTable, Number, Place, PreError, Word, WordList, read, read_keys};
use toml::Table;

/// How the attempts of a race follow each other (RFC 9623 section 4.3).
#[derive(Clone, Copy, Debug, PartialEq, Eq)]
pub enum Mode {
    Simultaneous,
    Staggered,
    Failover,
}

/// How a race is run. Times are in milliseconds.
#[derive(Clone, Copy, Debug)]
pub struct RacePlan {
    pub mode: Mode,
    /// Between two staggered attempts.
    pub delay_ms: u64,
    /// After which the race has failed.
    pub timeout_ms: u64,
    /// After which the application closes the race, if it does.
    pub cancel_ms: Option<u64>,
}

impl RacePlan {
    pub(crate) fn default() -> RacePlan
        ensures { result ≡ default_race }
    {
        RacePlan {
            mode: Mode::Staggered,
            delay_ms: 250,
            timeout_ms: 30_000,
            cancel_ms: None,
        }
    }
}

/// The words of modes of a race.
#[derive(Clone, Copy, Drop)]
pub struct Modes;

impl WordList for Modes {
    type Value = Mode;

    ghost words = { mode_words };

    #[tactic(auto, unfolding(crate::specs::Words::mode_words))]
    fn words() -> &'static [(&'static str, Mode)] {
        &[
            ("simultaneous", Mode::Simultaneous),
            ("staggered", Mode::Staggered),
            ("failover", Mode::Failover),
        ]
    }
}

/// The table `race`.
#[derive(Clone, Copy, Drop)]
pub(crate) struct RaceTable;

impl FromTable for RaceTable {
    type Output = RacePlan;

    ghost at = { λ _. race_at };

    #[tactic(auto, unfolding(crate::specs::Race::race_at, taps_table::specs::Keys::keys_of))]
    fn read_table(
        &self,
        alloc: Global,
        place: &Place<'_>,
        table: &Table,
    ) -> Result<RacePlan, PreError> {
        read! { read_keys(alloc, place, table);
            mode = "mode": Word::<Modes>::new(),
            delay = "delay_ms": Number { low: 10, high: 2000 },
            timeout = "timeout_ms": Number { low: 1, high: 3600000 },
            cancel = "cancel_ms": Number { low: 0, high: 3600000 },
        }
        let default = RacePlan::default();
        Ok(RacePlan {
            mode: mode.unwrap_or(default.mode),
            delay_ms: delay.unwrap_or(default.delay_ms),
            timeout_ms: timeout.unwrap_or(default.timeout_ms),
            cancel_ms: cancel,
        })
    }
}
