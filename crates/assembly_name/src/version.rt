//! Versions of assemblies.
ghost use Rattle.std.specs.Prelude.{◌≡◌};
ghost use Rattle.assembly_name.specs.Version.{is_at_least};

use crate::simple_name::SimpleName;

/// A version, in its four parts. ECMA-335 II.22.2.
#[derive(Clone, Copy, PartialEq, Eq, PartialOrd, Ord, Debug)]
pub struct Version {
    pub major: u16,
    pub minor: u16,
    pub build: u16,
    pub revision: u16,
}

/// A reference to an assembly: the name, and the version that is wanted. `==` compares the units of
/// the names; `same_name` compares names without regard to case. ECMA-335 II.22.5.
#[derive(PartialEq, Eq, Debug, Drop)]
pub struct AssemblyRef {
    pub name: SimpleName,
    pub version: Version,
}

/// Whether the found version serves: exactly where it is the wanted one or a later one, the four
/// parts compared from the left.
pub fn accepts(found: Version, wanted: Version) -> bool
    ensures { result ≡ is_at_least found wanted }
{
    found >= wanted
}
