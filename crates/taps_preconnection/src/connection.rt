ghost use Rattle.taps_preconnection.specs.PropertySets.{connection_properties, set_connection, connection_at};

use crate::property_table::{Properties, PropertySet};
use std::alloc::Global;
use taps_property::{ConnectionProps, PropError, PropValue, Property};
use taps_table::{FromTable, Place, PreError, read_keys};
use toml::Table;

impl PropertySet for ConnectionProps {
    ghost keys = { connection_properties };

    ghost sets = { set_connection };

    #[tactic(auto, unfolding(crate::specs::PropertySets::connection_properties))]
    fn properties() -> &'static [Property] {
        ConnectionProps::properties()
    }

    #[tactic(auto, unfolding(crate::specs::PropertySets::set_connection))]
    fn set_property(&mut self, name: &str, value: PropValue) -> Result<(), PropError> {
        self.set(name, value)
    }
}

/// The table `connection`.
#[derive(Clone, Copy, Drop)]
pub struct ConnectionTable;

impl FromTable for ConnectionTable {
    type Output = ConnectionProps;

    ghost at = { λ _. connection_at };

    fn read_table(
        &self,
        alloc: Global,
        place: &Place<'_>,
        table: &Table,
    ) -> Result<ConnectionProps, PreError> {
        let start = ConnectionProps::defaults();
        read_keys(alloc, place, table, &Properties { start })
    }
}
