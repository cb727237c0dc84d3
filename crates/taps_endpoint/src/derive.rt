ghost use Rattle.std.specs.Prelude.{◌≡◌, fold, map, OnOk, IfOk};
ghost use Rattle.std.specs.List.{IsDistinct};
ghost use Rattle.taps_endpoint.specs.DerivedAddresses.{with_port, same_address, with_address, addresses_of, derived_addresses, Derives};

use crate::{Address, Hosts, Ip, Remote};
use indexmap::IndexSet;
use std::alloc::Global;
use taps_base::{List, NoMemory};

/// How many addresses there may be.
const MOST: usize = 32;

/// Why no addresses were derived.
#[derive(Clone, Copy, Debug, PartialEq, Eq)]
pub enum DeriveError {
    /// There would be so many, more than 32.
    TooMany(u64),
    /// Memory ran out.
    NoMemory,
}

/// The addresses of the remotes, in their order, each once.
pub fn derive_addresses(
    alloc: Global,
    remotes: &List<Remote>,
    hosts: &Hosts,
) -> Result<List<Address>, DeriveError>
    ensures derives { Derives result (derived_addresses hosts.now remotes.now.items) }
    ensures distinct { IfOk result (λ addresses. IsDistinct same_address addresses.items) }
{
    let mut found = IndexSet::new(alloc);
    for remote in remotes.as_slice() {
        match add_remote(&mut found, remote, hosts) {
            Ok(()) => {}
            Err(_) => return Err(DeriveError::NoMemory),
        }
    }
    if found.len() > MOST {
        return Err(DeriveError::TooMany(found.len() as u64));
    }
    match list_of(alloc, found.as_slice()) {
        Ok(addresses) => Ok(addresses),
        Err(_) => Err(DeriveError::NoMemory),
    }
}

fn add_remote(found: &mut IndexSet<Address>, remote: &Remote, hosts: &Hosts) -> Result<(), NoMemory>
    ensures { OnOk result (found.new.keys ≡ fold with_address found.old.keys (addresses_of hosts.now remote.now)) }
{
    match remote {
        Remote::Literal(address) => add(found, *address),
        Remote::Host { name, port } => match hosts.find(name) {
            Some(ips) => add_all(found, ips.as_slice(), *port),
            None => Ok(()),
        },
    }
}

fn add_all(found: &mut IndexSet<Address>, ips: &[Ip], port: u16) -> Result<(), NoMemory>
    ensures { OnOk result (found.new.keys ≡ fold with_address found.old.keys (map (with_port port) ips.now)) }
{
    for ip in ips {
        add(found, address_at(*ip, port))?;
    }
    Ok(())
}

fn add(found: &mut IndexSet<Address>, address: Address) -> Result<(), NoMemory>
    ensures { OnOk result (found.new.keys ≡ with_address found.old.keys address) }
{
    found.insert(address)?;
    Ok(())
}

fn address_at(ip: Ip, port: u16) -> Address
    ensures { result ≡ with_port port ip }
{
    match ip {
        Ip::V4(octets) => Address::V4 { octets, port },
        Ip::V6(fields) => Address::V6 { fields, port },
    }
}

fn list_of(alloc: Global, addresses: &[Address]) -> Result<List<Address>, NoMemory>
    ensures { IfOk result (λ list. list.items ≡ addresses.now) }
{
    let mut list = List::new(alloc);
    list.reserve(addresses.len())?;
    for address in addresses {
        match list.push(*address) {
            Ok(()) => {}
            Err(_) => return Err(NoMemory),
        }
    }
    Ok(list)
}
