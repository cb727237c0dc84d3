ghost use Rattle.std.specs.Prelude.{◌≡◌, ℕ, List as Items, [], Some, false, bytes_eq, option_map, OnOk, OnErr};
ghost use Rattle.taps_endpoint.specs.Hosts.{find_host, put_host};

use crate::Ip;
use indexmap::IndexMap;
use std::alloc::Global;
use std::marker::Model;
use taps_base::{List, Name, NoMemory};

/// The addresses of hosts, by their names.
#[derive(Drop)]
pub struct Hosts {
    table: IndexMap<String, List<Ip>>,
}

impl Model for Hosts {
    ghost use Rattle.std.specs.Prelude.{List, ℕ, map, string_bytes};
    ghost use Rattle.taps_endpoint.specs.declared.address.Ip.{Ip};

    ghost Value = { List (List ℕ × List Ip) };

    ghost view = { λ hosts. map (λ entry. (string_bytes entry.0, entry.1.items)) hosts.table.entries };
}

impl Hosts {
    /// No hosts.
    pub fn new(alloc: Global) -> Hosts
        ensures { result ≡ [] }
    {
        Hosts {
            table: IndexMap::new(alloc),
        }
    }

    /// Gives a name these addresses, in place of those that it had.
    pub fn put(&mut self, name: Name, ips: List<Ip>) -> Result<(), NoMemory>
        ensures table { OnOk result (self.new ≡ put_host self.old name ips.items) }
        ensures set { OnOk result (find_host self.new name ≡ Some ips.items) }
        ensures others { OnOk result ((other : Items ℕ) → bytes_eq other name ≡ false
            → find_host self.new other ≡ find_host self.old other) }
        ensures unchanged { OnErr result (self.new ≡ self.old) }
    {
        let alloc = *self.table.allocator();
        let key = String::from_str(alloc, name.as_str())?;
        self.table.insert(key, ips)?;
        Ok(())
    }

    /// The addresses of a name.
    pub fn find(&self, name: &Name) -> Option<&List<Ip>>
        ensures { option_map (λ ips. ips.now.items) result ≡ find_host self.now name.now }
    {
        self.table.get(name.as_str())
    }
}
