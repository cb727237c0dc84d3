ghost use Rattle.std.specs.Prelude.{◌≡◌, Option, IfOk};
ghost use Rattle.std.specs.List.{list_any};
ghost use Rattle.toml.specs.View.{table_view};
ghost use Rattle.taps_table.specs.Refusals.{Gives};
ghost use Rattle.taps_preconnection.specs.Paths.{is_among, reaches, path_at, any_path, some_path};

use crate::words::Families;
use std::alloc::Global;
use taps_base::{List, Name, NameError, NoMemory};
use taps_endpoint::Family;
use taps_table::{
    ArrayOf, Each, Flag, FromTable, NameText, Place, PreError, Word, present, read, read_keys,
};
use toml::Table;

/// A way out of this host: an interface, and a provisioning domain that it belongs to.
#[derive(Debug, Drop)]
pub struct Path {
    pub interface: Name,
    pub pvd: Option<Name>,
    /// Whether its local address is temporary.
    pub temporary: bool,
    /// Whether it reaches IPv4 addresses.
    pub inet4: bool,
    /// Whether it reaches IPv6 addresses.
    pub inet6: bool,
    /// Whether it reaches Unix sockets.
    pub unix: bool,
}

/// A table `path`.
#[derive(Clone, Copy, Drop)]
pub(crate) struct PathTable;

impl FromTable for PathTable {
    type Output = Path;

    ghost at = { λ _. path_at };

    #[tactic(auto, unfolding(crate::specs::Paths::path_at, taps_table::specs::Keys::keys_of))]
    fn read_table(
        &self,
        alloc: Global,
        place: &Place<'_>,
        table: &Table,
    ) -> Result<Path, PreError> {
        read! { read_keys(alloc, place, table);
            interface = "interface": NameText,
            pvd = "pvd": NameText,
            temporary = "temporary": Flag,
            families = "families": ArrayOf { most: 3, items: Each { kind: Word::<Families>::new() } },
        }
        let interface = present(alloc, place, interface)?;
        Ok(Path {
            interface,
            pvd,
            temporary: temporary.unwrap_or(false),
            inet4: reaches(&families, Family::Inet4),
            inet6: reaches(&families, Family::Inet6),
            unix: reaches(&families, Family::Unix),
        })
    }
}

fn is_among(families: &[Family], family: Family) -> bool
    ensures { result ≡ is_among families.now family }
{
    match family {
        Family::Inet4 => families.iter().any(|other| matches!(other, Family::Inet4)),
        Family::Inet6 => families.iter().any(|other| matches!(other, Family::Inet6)),
        Family::Unix => families.iter().any(|other| matches!(other, Family::Unix)),
    }
}

// A path that says no families reaches each.
#[tactic(auto, unfolding(crate::specs::Paths::reaches))]
fn reaches(families: &Option<List<Family>>, family: Family) -> bool
    ensures { result ≡ reaches families.now family }
{
    match families {
        None => true,
        Some(families) => is_among(families.as_slice(), family),
    }
}

/// The path of a file that declares none, which reaches each family.
fn any_path(alloc: Global) -> Result<Path, NoMemory>
    ensures { IfOk result (λ path. path ≡ any_path) }
{
    match Name::read(alloc, b"any") {
        Ok(interface) => Ok(Path {
            interface,
            pvd: None,
            temporary: false,
            inet4: true,
            inet6: true,
            unix: true,
        }),
        Err(NameError::NoMemory) => Err(NoMemory),
        Err(NameError::NotName) => unreachable!(),
    }
}

/// The paths that a file declares, or the one of a file that declares none.
pub(crate) fn some_path(alloc: Global, paths: Option<List<Path>>) -> Result<List<Path>, NoMemory>
    ensures { IfOk result (λ all. all ≡ some_path paths) }
{
    match paths {
        Some(paths) if paths.len() > 0 => Ok(paths),
        _ => {
            let mut paths = Vec::with_capacity(alloc, 1)?;
            paths.push(any_path(alloc)?)?;
            Ok(List::from_vec(paths))
        }
    }
}
