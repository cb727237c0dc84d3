ghost use Rattle.std.specs.Prelude.{◌≡◌, []};
ghost use Rattle.toml.specs.View.{view, table_view};
ghost use Rattle.taps_table.specs.Keys.{in_byte_order};
ghost use Rattle.taps_table.specs.Places.{place_text};
ghost use Rattle.taps_table.specs.Refusals.{Gives, Shows};
ghost use Rattle.taps_preconnection.specs.Endpoints.{host_at, hosts_after, hosts_at};

use crate::text::IpText;
use std::alloc::Global;
use taps_endpoint::Hosts;
use taps_table::{ArrayOf, Each, FromTable, Kind, Place, PreError, read_name, too_many};
use toml::{Table, Value};

/// The most hosts of a table.
const MOST: u64 = 64;

/// The most addresses of a host.
const MOST_OF_ONE: u64 = 32;

/// The table `hosts`.
#[derive(Clone, Copy, Drop)]
pub struct HostTable;

impl FromTable for HostTable {
    type Output = Hosts;

    ghost at = { λ _. hosts_at };

    #[tactic(auto, using(taps_table::proofs::Documents::count_members_view), unfolding(crate::specs::Endpoints::hosts_at))]
    fn read_table(
        &self,
        alloc: Global,
        place: &Place<'_>,
        table: &Table,
    ) -> Result<Hosts, PreError> {
        let count = table.len() as u64;
        if count > MOST {
            return too_many(alloc, place, count);
        }
        read_hosts(alloc, place, table)
    }
}

#[tactic(auto, using(taps_table::proofs::KnownKeys::ordered), unfolding(crate::specs::Endpoints::hosts_after))]
fn read_hosts(alloc: Global, place: &Place<'_>, table: &Table) -> Result<Hosts, PreError>
    ensures { Gives result (hosts_after (place_text place.now) (in_byte_order (table_view table.now)) []) }
{
    let mut hosts = Hosts::new(alloc);
    for (key, value) in table.iter() {
        read_host(alloc, place, key.as_str(), value, &mut hosts)?;
    }
    Ok(hosts)
}

#[tactic(auto, unfolding(crate::specs::Endpoints::host_at))]
fn read_host(
    alloc: Global,
    place: &Place<'_>,
    key: &str,
    value: &Value,
    hosts: &mut Hosts,
) -> Result<(), PreError>
    ensures { Shows (λ _. hosts.new) result (host_at (place_text place.now) key.now (view value.now) hosts.old) }
{
    let at = Place::Key(place, key);
    let name = read_name(alloc, &at, key)?;
    let kind = ArrayOf {
        most: MOST_OF_ONE,
        items: Each { kind: IpText },
    };
    let ips = kind.read(alloc, &at, value)?;
    hosts.put(name, ips)?;
    Ok(())
}
