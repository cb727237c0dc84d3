ghost use Rattle.std.specs.Prelude.{◌≡◌};
ghost use Rattle.toml.specs.View.{table_view};
ghost use Rattle.taps_table.specs.Places.{place_text};
ghost use Rattle.taps_table.specs.Refusals.{Gives};
ghost use Rattle.taps_preconnection.specs.PropertySets.{selection_properties, set_selection, profiled, selected, selection_keys, selections_at, unselected, is_replayable};

use crate::property_table::{PropertySet, has_property, read_properties};
use std::alloc::Global;
use taps_property::{Profile, PropError, PropValue, Property, Role, Selection};
use taps_table::{FromTable, Keys, Place, PreError, read_keys};
use toml::Table;

/// What is asked of stacks and paths in each role.
#[derive(Drop)]
pub(crate) struct Selections {
    pub initiating: Selection,
    pub listening: Selection,
    pub meeting: Selection,
}

impl Selections {
    /// What is asked where the file has no table `selection`.
    pub fn unselected(alloc: Global, profile: Option<Profile>) -> Selections
        ensures { result ≡ unselected profile }
    {
        Selections {
            initiating: profiled(alloc, profile, Role::Initiate),
            listening: profiled(alloc, profile, Role::Listen),
            meeting: profiled(alloc, profile, Role::Rendezvous),
        }
    }
}

// The defaults, and the profile over them.
fn profiled(alloc: Global, profile: Option<Profile>, role: Role) -> Selection
    ensures { result ≡ profiled profile role }
{
    let mut selection = Selection::defaults(alloc, role);
    if let Some(profile) = profile {
        selection.apply_profile(profile);
    }
    selection
}

impl PropertySet for Selection {
    ghost keys = { selection_properties };

    ghost sets = { set_selection };

    #[tactic(auto, unfolding(crate::specs::PropertySets::selection_properties))]
    fn properties() -> &'static [Property] {
        Selection::properties()
    }

    #[tactic(auto, unfolding(crate::specs::PropertySets::set_selection))]
    fn set_property(&mut self, name: &str, value: PropValue) -> Result<(), PropError> {
        self.set(name, value)
    }
}

fn selected(
    alloc: Global,
    profile: Option<Profile>,
    role: Role,
    place: &Place<'_>,
    table: &Table,
) -> Result<Selection, PreError>
    ensures { Gives result (selected profile role (place_text place.now) (table_view table.now)) }
{
    let mut selection = profiled(alloc, profile, role);
    read_properties(alloc, place, table, &mut selection)?;
    Ok(selection)
}

/// The keys of the selection, which are set in each role over what the profile asks.
#[derive(Clone, Copy, Drop)]
struct SelectionKeys {
    profile: Option<Profile>,
}

impl Keys for SelectionKeys {
    type Output = Selections;

    ghost keys = { λ k. selection_keys k.profile };

    fn knows(&self, name: &str) -> bool {
        has_property::<Selection>(name)
    }

    fn read(
        &self,
        alloc: Global,
        place: &Place<'_>,
        table: &Table,
    ) -> Result<Selections, PreError> {
        let initiating = selected(alloc, self.profile, Role::Initiate, place, table)?;
        let listening = selected(alloc, self.profile, Role::Listen, place, table)?;
        let meeting = selected(alloc, self.profile, Role::Rendezvous, place, table)?;
        Ok(Selections {
            initiating,
            listening,
            meeting,
        })
    }
}

/// The table `selection`, beside this profile.
#[derive(Clone, Copy, Drop)]
pub(crate) struct SelectionTable {
    pub profile: Option<Profile>,
}

impl FromTable for SelectionTable {
    type Output = Selections;

    ghost at = { λ t. selections_at t.profile };

    fn read_table(
        &self,
        alloc: Global,
        place: &Place<'_>,
        table: &Table,
    ) -> Result<Selections, PreError> {
        let profile = self.profile;
        read_keys(alloc, place, table, &SelectionKeys { profile })
    }
}

/// Whether messages may be sent again under this profile.
pub(crate) fn is_replayable(profile: Option<Profile>) -> bool
    ensures { result ≡ is_replayable profile }
{
    match profile {
        Some(Profile::UnreliableDatagram) => true,
        Some(Profile::ReliableInorderStream) | Some(Profile::ReliableMessage) => false,
        None => false,
    }
}
