//! The names of the platform.
ghost use Rattle.std.specs.Prelude.{◌≡◌, codes};
ghost use Rattle.std.specs.Char.{to_ascii_lowercase};
ghost use Rattle.cli_words.specs.Text.{are_alike};
ghost use Rattle.host_events.specs.Bindings.{is_platform_name};

use assembly_name::{SimpleName, Version};

/// The platform's version, which serves whatever version is wanted.
pub(crate) const PLATFORM_VERSION: Version = Version {
    major: u16::MAX,
    minor: u16::MAX,
    build: u16::MAX,
    revision: u16::MAX,
};

/// Whether the name is one of the platform's, without regard to ASCII case. The platform is
/// assembly 0, and has these names in every context.
pub(crate) fn is_platform_name(name: &SimpleName) -> bool
    ensures { result ≡ is_platform_name name.now }
{
    let units = name.units().units();
    let runtime = is_alike(units, b"System.Runtime");
    let console = is_alike(units, b"System.Console");
    let core_lib = is_alike(units, b"System.Private.CoreLib");
    let mscorlib = is_alike(units, b"mscorlib");
    let netstandard = is_alike(units, b"netstandard");
    runtime || console || core_lib || mscorlib || netstandard
}

/// Whether the units are these ASCII letters, without regard to case.
fn is_alike(units: &[u16], letters: &[u8]) -> bool
    ensures { result ≡ are_alike units.now letters.now }
{
    if units.len() != letters.len() {
        return false;
    }
    for i in 0..units.len() {
        if lower(units[i]) != lower(u16::from(letters[i])) {
            return false;
        }
    }
    true
}

fn lower(unit: u16) -> u16
    ensures { result ≡ to_ascii_lowercase unit }
{
    match unit {
        0x41..=0x5A => unit + 0x20,
        _ => unit,
    }
}
