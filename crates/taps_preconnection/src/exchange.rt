ghost use Rattle.std.specs.Prelude.{◌≡◌};
ghost use Rattle.toml.specs.View.{table_view};
ghost use Rattle.taps_table.specs.Places.{place_text};
ghost use Rattle.taps_table.specs.Refusals.{Gives};
ghost use Rattle.taps_preconnection.specs.Words.{role_words};
ghost use Rattle.taps_preconnection.specs.Exchanges.{is_initiate, default_exchange, exchange_rules, exchange_at};

use std::alloc::Global;
use taps_base::List;
use taps_table::{
    ArrayOf, Each, FromTable, Number, Place, PreError, Word, WordList, key_rule, read, read_keys,
};
use toml::Table;

/// What a run does with its Preconnection.
#[derive(Clone, Copy, Debug, PartialEq, Eq)]
pub enum RunRole {
    Initiate,
    Listen,
    /// Both ends in one run.
    Loop,
}

/// How messages are exchanged once there is a connection. Times are in milliseconds.
#[derive(Drop)]
pub struct Exchange {
    pub role: RunRole,
    /// How many messages are to be received.
    pub expect: u64,
    /// After which the exchange has failed.
    pub deadline_ms: u64,
    /// The most bytes that are asked from a stream at once.
    pub piece: u64,
    /// The most bytes of a part of a message, if messages are received in parts.
    pub part: Option<u64>,
    /// How many clones the connection has.
    pub clones: u64,
    /// The priority of each member of the group, the connection first.
    pub priorities: List<u64>,
    /// How many connections a listener accepts.
    pub connections: u64,
}

impl Exchange {
    pub(crate) fn default(alloc: Global) -> Exchange
        ensures { result ≡ default_exchange }
    {
        Exchange {
            role: RunRole::Initiate,
            expect: 0,
            deadline_ms: 10_000,
            piece: 4096,
            part: None,
            clones: 0,
            priorities: List::new(alloc),
            connections: 1,
        }
    }
}

/// The words of roles of a run.
#[derive(Clone, Copy, Drop)]
pub struct Roles;

impl WordList for Roles {
    type Value = RunRole;

    ghost words = { role_words };

    #[tactic(auto, unfolding(crate::specs::Words::role_words))]
    fn words() -> &'static [(&'static str, RunRole)] {
        &[
            ("initiate", RunRole::Initiate),
            ("listen", RunRole::Listen),
            ("loop", RunRole::Loop),
        ]
    }
}

/// The table `exchange`.
#[derive(Clone, Copy, Drop)]
pub(crate) struct ExchangeTable;

impl FromTable for ExchangeTable {
    type Output = Exchange;

    ghost at = { λ _. exchange_at };

    #[tactic(auto, unfolding(crate::specs::Exchanges::exchange_at, taps_table::specs::Keys::keys_of))]
    fn read_table(
        &self,
        alloc: Global,
        place: &Place<'_>,
        table: &Table,
    ) -> Result<Exchange, PreError> {
        read! { read_keys(alloc, place, table);
            role = "role": Word::<Roles>::new(),
            expect = "expect": Number { low: 0, high: 256 },
            deadline = "deadline_ms": Number { low: 1, high: 3600000 },
            piece = "piece": Number { low: 1, high: 65536 },
            part = "part": Number { low: 1, high: 1048576 },
            clones = "clones": Number { low: 0, high: 15 },
            priorities = "priorities": ArrayOf { most: 16, items: Each { kind: Number { low: 0, high: 4294967295 } } },
            connections = "connections": Number { low: 1, high: 16 },
        }
        let default = Exchange::default(alloc);
        let exchange = Exchange {
            role: role.unwrap_or(default.role),
            expect: expect.unwrap_or(default.expect),
            deadline_ms: deadline.unwrap_or(default.deadline_ms),
            piece: piece.unwrap_or(default.piece),
            part,
            clones: clones.unwrap_or(default.clones),
            priorities: priorities.unwrap_or(default.priorities),
            connections: connections.unwrap_or(default.connections),
        };
        keep_rules(alloc, place, exchange)
    }
}

fn is_initiate(role: RunRole) -> bool
    ensures { result ≡ is_initiate role }
{
    match role {
        RunRole::Initiate => true,
        RunRole::Listen | RunRole::Loop => false,
    }
}

// Only the role `initiate` has clones, and each priority is one of a member that there may be.
#[tactic(auto, unfolding(crate::specs::Exchanges::exchange_rules))]
fn keep_rules(alloc: Global, place: &Place<'_>, exchange: Exchange) -> Result<Exchange, PreError>
    ensures { Gives result (exchange_rules (place_text place.now) exchange) }
{
    let no_more = is_initiate(exchange.role) || exchange.clones == 0;
    key_rule(alloc, place, "clones", no_more)?;
    let few = exchange.priorities.len() as u128 <= exchange.clones as u128 + 1;
    key_rule(alloc, place, "priorities", few)?;
    Ok(exchange)
}
