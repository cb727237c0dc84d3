ghost use Rattle.std.specs.Prelude.{◌≡◌, IfOk};
ghost use Rattle.toml.specs.View.{table_view};
ghost use Rattle.taps_preconnection.specs.Limits.{IsWithin};
ghost use Rattle.taps_table.specs.Refusals.{Gives};
ghost use Rattle.taps_preconnection.specs.File.{no_other_key, profile_at, tables_at, contents_at, needs_remote, with_defaults, consistent, preconnection_of};

use crate::connection::ConnectionTable;
use crate::exchange::ExchangeTable;
use crate::hosts::HostTable;
use crate::local::LocalTable;
use crate::message::{MessageTable, messages_fit};
use crate::path::{PathTable, some_path};
use crate::race::RaceTable;
use crate::remote::RemoteTable;
use crate::selections::{SelectionTable, Selections, is_replayable};
use crate::words::Profiles;
use crate::{Exchange, MessageSpec, Path, Preconnection, RacePlan, RunRole};
use std::alloc::Global;
use taps_base::{List, Name, NoMemory};
use taps_endpoint::{Hosts, Local, Remote};
use taps_property::{ConnectionProps, Profile};
use taps_table::{
    ArrayOf, Each, NameText, Names, Number, Place, PreError, Tabled, Word, read, read_document,
    read_keys, read_known,
};
use toml::Table;

/// The keys of the top table.
const NAMES: [&str; 12] = [
    "format",
    "profile",
    "framers",
    "selection",
    "connection",
    "path",
    "local",
    "remote",
    "hosts",
    "race",
    "message",
    "exchange",
];

/// What stands at the keys of a file.
#[derive(Drop)]
struct Contents {
    profile: Option<Profile>,
    framers: Option<List<Name>>,
    selections: Option<Selections>,
    connection: Option<ConnectionProps>,
    paths: Option<List<Path>>,
    locals: Option<List<Local>>,
    remotes: Option<List<Remote>>,
    hosts: Option<Hosts>,
    race: Option<RacePlan>,
    messages: Option<List<MessageSpec>>,
    exchange: Option<Exchange>,
}

/// The Preconnection that the file's bytes give, or the first refusal.
#[tactic(auto, using(crate::proofs::Within::within))]
pub fn read_preconnection(alloc: Global, bytes: &[u8]) -> Result<Preconnection, PreError>
    ensures meaning { Gives result (preconnection_of bytes.now) }
    ensures within { IfOk result IsWithin }
{
    read_file(alloc, bytes)
}

#[tactic(auto, unfolding(crate::specs::File::preconnection_of))]
fn read_file(alloc: Global, bytes: &[u8]) -> Result<Preconnection, PreError>
    ensures { Gives result (preconnection_of bytes.now) }
{
    let table = read_document(alloc, bytes)?;
    let contents = read_contents(alloc, &table)?;
    let preconnection = with_defaults(alloc, contents)?;
    consistent(alloc, preconnection)
}

#[tactic(auto, unfolding(crate::specs::File::contents_at))]
fn read_contents(alloc: Global, table: &Table) -> Result<Contents, PreError>
    ensures { Gives result (contents_at (table_view table.now)) }
{
    refuse_other_keys(alloc, table)?;
    let profile = read_profile(alloc, table)?;
    read_tables(alloc, table, profile)
}

#[tactic(auto, unfolding(crate::specs::File::no_other_key))]
fn refuse_other_keys(alloc: Global, table: &Table) -> Result<(), PreError>
    ensures { Gives result (no_other_key (table_view table.now)) }
{
    read_keys(alloc, &Place::Top, table, &Names { names: &NAMES })
}

#[tactic(auto, unfolding(crate::specs::File::profile_at))]
fn read_profile(alloc: Global, table: &Table) -> Result<Option<Profile>, PreError>
    ensures { Gives result (profile_at (table_view table.now)) }
{
    read! { read_known(alloc, &Place::Top, table);
        _format = "format": Number { low: 1, high: 1 },
        profile = "profile": Word::<Profiles>::new(),
    }
    Ok(profile)
}

#[tactic(auto, unfolding(crate::specs::File::tables_at))]
fn read_tables(alloc: Global, table: &Table, profile: Option<Profile>) -> Result<Contents, PreError>
    ensures { Gives result (tables_at profile (table_view table.now)) }
{
    read! { read_known(alloc, &Place::Top, table);
        framers = "framers": ArrayOf { most: 8, items: Each { kind: NameText } },
        selections = "selection": Tabled { table: SelectionTable { profile } },
        connection = "connection": Tabled { table: ConnectionTable },
        paths = "path": ArrayOf { most: 8, items: Each { kind: Tabled { table: PathTable } } },
        locals = "local": ArrayOf { most: 8, items: Each { kind: Tabled { table: LocalTable } } },
        remotes = "remote": ArrayOf { most: 16, items: Each { kind: Tabled { table: RemoteTable } } },
        hosts = "hosts": Tabled { table: HostTable },
        race = "race": Tabled { table: RaceTable },
        messages = "message": ArrayOf { most: 256, items: Each { kind: Tabled { table: MessageTable } } },
        exchange = "exchange": Tabled { table: ExchangeTable },
    }
    Ok(Contents {
        profile,
        framers,
        selections,
        connection,
        paths,
        locals,
        remotes,
        hosts,
        race,
        messages,
        exchange,
    })
}

// The contents, and a default for each key that is missing.
fn with_defaults(alloc: Global, contents: Contents) -> Result<Preconnection, NoMemory>
    ensures { IfOk result (λ pre. pre ≡ with_defaults contents) }
{
    let profile = contents.profile;
    let selections = contents
        .selections
        .unwrap_or(Selections::unselected(alloc, profile));
    Ok(Preconnection {
        initiating: selections.initiating,
        listening: selections.listening,
        meeting: selections.meeting,
        replayable: is_replayable(profile),
        connection: contents.connection.unwrap_or(ConnectionProps::defaults()),
        paths: some_path(alloc, contents.paths)?,
        locals: contents.locals.unwrap_or(List::new(alloc)),
        remotes: contents.remotes.unwrap_or(List::new(alloc)),
        hosts: contents.hosts.unwrap_or(Hosts::new(alloc)),
        race: contents.race.unwrap_or(RacePlan::default()),
        framers: contents.framers.unwrap_or(List::new(alloc)),
        messages: contents.messages.unwrap_or(List::new(alloc)),
        exchange: contents.exchange.unwrap_or(Exchange::default(alloc)),
    })
}

// An end that reaches out has a remote.
#[tactic(auto, unfolding(crate::specs::File::needs_remote))]
fn needs_remote(role: RunRole, remotes: &[Remote]) -> Result<(), PreError>
    ensures { Gives result (needs_remote role remotes.now) }
{
    match remotes {
        [] => match role {
            RunRole::Initiate | RunRole::Loop => Err(PreError::NoRemote),
            RunRole::Listen => Ok(()),
        },
        [_, ..] => Ok(()),
    }
}

// The rules that the tables keep together.
#[tactic(auto, unfolding(crate::specs::File::consistent))]
fn consistent(alloc: Global, pre: Preconnection) -> Result<Preconnection, PreError>
    ensures { Gives result (consistent pre) }
{
    needs_remote(pre.exchange.role, pre.remotes.as_slice())?;
    messages_fit(alloc, pre.exchange.clones, pre.messages.as_slice())?;
    Ok(pre)
}
