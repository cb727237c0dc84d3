ghost use Rattle.std.specs.Prelude.{◌≡◌, ◌<◌};
ghost use Rattle.toml.specs.View.{table_view};
ghost use Rattle.taps_table.specs.Places.{place_text};
ghost use Rattle.taps_table.specs.Refusals.{Gives};
ghost use Rattle.taps_preconnection.specs.Endpoints.{port_of, remote_at, remote_from};

use crate::text::AddressText;
use std::alloc::Global;
use taps_base::Name;
use taps_endpoint::{Address, Remote};
use taps_table::{
    FromTable, Kind, NameText, Number, Place, PreError, out_of_range, read, read_keys,
};
use toml::{Table, Value};

/// A port other than 0.
#[derive(Clone, Copy, Drop)]
struct Port;

impl Kind for Port {
    type Output = u16;

    ghost reads = { λ _. port_of };

    fn read(&self, alloc: Global, place: &Place<'_>, value: &Value) -> Result<u16, PreError> {
        let port = Number {
            low: 1,
            high: 65535,
        }
        .read(alloc, place, value)?;
        Ok(port as u16)
    }
}

/// A table `remote`.
#[derive(Clone, Copy, Drop)]
pub struct RemoteTable;

impl FromTable for RemoteTable {
    type Output = Remote;

    ghost at = { λ _. remote_at };

    #[tactic(auto, unfolding(crate::specs::Endpoints::remote_at, taps_table::specs::Keys::keys_of))]
    fn read_table(
        &self,
        alloc: Global,
        place: &Place<'_>,
        table: &Table,
    ) -> Result<Remote, PreError> {
        read! { read_keys(alloc, place, table);
            address = "address": AddressText,
            host = "host": NameText,
            port = "port": Port,
        }
        remote_from(alloc, place, address, host, port)
    }
}

// An address alone, or a host with its port.
fn remote_from(
    alloc: Global,
    place: &Place<'_>,
    address: Option<Address>,
    host: Option<Name>,
    port: Option<u16>,
) -> Result<Remote, PreError>
    ensures { Gives result (remote_from (place_text place.now) address host port) }
{
    match address {
        Some(address) => match host {
            Some(_) => out_of_range(alloc, place),
            None => match port {
                Some(_) => out_of_range(alloc, place),
                None => Ok(Remote::Literal(address)),
            },
        },
        None => match host {
            None => out_of_range(alloc, place),
            Some(name) => match port {
                None => out_of_range(alloc, place),
                Some(port) => Ok(Remote::Host { name, port }),
            },
        },
    }
}
