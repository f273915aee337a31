//! Simple names of assemblies.
ghost use Rattle.std.specs.Prelude.{◌≡◌, IfOk};
ghost use Rattle.cli_words.specs.Text.{are_alike};

use cli_words::Units;
use std::alloc::{AllocError, Global};
use std::marker::Model;

/// The simple name of an assembly: a text of any units. `==` compares the units themselves.
#[derive(Debug, Drop)]
pub struct SimpleName {
    text: Units,
}

impl Model for SimpleName {
    ghost use Rattle.std.specs.Prelude.{List, ℕ};

    ghost Value = { List ℕ };

    ghost view = { λ name. name.text };
}

impl SimpleName {
    /// The name of these units.
    pub fn of(units: Units) -> SimpleName
        ensures { result ≡ units }
    {
        SimpleName { text: units }
    }

    /// The units of the name.
    pub fn units(&self) -> &Units
        ensures { result.now ≡ self.now }
    {
        &self.text
    }

    /// One more owner of the name. It can be refused, as memory can.
    pub fn share(&self, alloc: Global) -> Result<SimpleName, AllocError>
        ensures { IfOk result (λ name. name ≡ self.now) }
    {
        Ok(SimpleName::of(self.text.share(alloc)?))
    }
}

impl PartialEq for SimpleName {
    ghost use Rattle.std.specs.Str.{bytes_eq};
    ghost use Rattle.std.specs.Cmp.{nat_eq_equiv, partial_equiv_from_equiv};
    ghost use Rattle.std.specs.Cmp.Lexicographic.{lists_per};

    ghost eq = { bytes_eq };

    ghost laws = { lists_per (partial_equiv_from_equiv nat_eq_equiv) };

    fn eq(&self, other: &SimpleName) -> bool {
        self.text == other.text
    }
}

impl Eq for SimpleName {
    ghost use Rattle.std.specs.Cmp.{nat_eq_equiv};
    ghost use Rattle.std.specs.Cmp.Lexicographic.{lists_equiv};

    ghost laws = { lists_equiv nat_eq_equiv };
}

/// The two names are the same without regard to ASCII case.
pub fn same_name(a: &SimpleName, b: &SimpleName) -> bool
    ensures { result ≡ are_alike a.now b.now }
{
    a.units().eq_ignore_ascii_case(b.units())
}
