ghost use Rattle.taps_preconnection.specs.Endpoints.{local_at};

use crate::text::AddressText;
use std::alloc::Global;
use taps_endpoint::Local;
use taps_table::{FromTable, NameText, Place, PreError, read, read_keys};
use toml::Table;

/// A table `local`.
#[derive(Clone, Copy, Drop)]
pub struct LocalTable;

impl FromTable for LocalTable {
    type Output = Local;

    ghost at = { λ _. local_at };

    #[tactic(auto, unfolding(crate::specs::Endpoints::local_at, taps_table::specs::Keys::keys_of))]
    fn read_table(
        &self,
        alloc: Global,
        place: &Place<'_>,
        table: &Table,
    ) -> Result<Local, PreError> {
        read! { read_keys(alloc, place, table);
            interface = "interface": NameText,
            address = "address": AddressText,
        }
        Ok(Local { interface, address })
    }
}
