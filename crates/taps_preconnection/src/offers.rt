ghost use Rattle.std.specs.Prelude.{◌≡◌, ◌<◌, length};
ghost use Rattle.taps_preconnection.specs.PathOffers.{path_of, offers_interface, offers_pvd, leads_to};

use crate::{Path, Preconnection};
use taps_base::Name;
use taps_endpoint::Family;

impl Preconnection {
    /// The path at a place of `paths`.
    pub fn path(&self, place: usize) -> &Path
        requires { place < length self.now.paths.items }
        ensures { result.now ≡ path_of self.now place }
    {
        let paths = self.paths.as_slice();
        &paths[place]
    }
}

impl Path {
    /// Whether this is the name of its interface.
    pub fn offers_interface(&self, name: &Name) -> bool
        ensures { result ≡ offers_interface self.now name.now }
    {
        self.interface.bytes() == name.bytes()
    }

    /// Whether this is the name of its provisioning domain.
    pub fn offers_pvd(&self, name: &Name) -> bool
        ensures { result ≡ offers_pvd self.now name.now }
    {
        match &self.pvd {
            None => false,
            Some(own) => own.bytes() == name.bytes(),
        }
    }

    /// Whether it leads to addresses of this family.
    pub fn leads_to(&self, family: Family) -> bool
        ensures { result ≡ leads_to self.now family }
    {
        match family {
            Family::Inet4 => self.inet4,
            Family::Inet6 => self.inet6,
            Family::Unix => self.unix,
        }
    }
}
