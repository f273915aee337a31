//! Names that scripts and reports spell.
ghost use Rattle.std.specs.Prelude.{◌≡◌, ◌↔◌, IfOk};
ghost use Rattle.std.specs.Result.{IsErrOf};
ghost use Rattle.std.specs.List.{list_all};
ghost use Rattle.cli_words.specs.Name.{is_name_byte, is_name, IsName};

use std::alloc::{AllocError, Global};
use std::marker::Model;
use std::sync::Arc;
use thiserror::Error;

/// The greatest number of bytes of a name.
pub const MAX_NAME: usize = 64;

/// A name: 1 to 64 of the characters `A-Z a-z 0-9 _ . -`, shared among its owners.
#[derive(Debug, Drop)]
pub struct Name {
    shared: Arc<Vec<u8>>,
}

impl Model for Name {
    ghost use Rattle.std.specs.Prelude.{List, ℕ};
    ghost use Rattle.std.specs.Arc.{arc_value};
    ghost use Rattle.cli_words.specs.Name.{IsName};

    ghost Value = { List ℕ };

    ghost view = { λ name. (arc_value name.shared).items };

    ghost invariant = { λ name. IsName (arc_value name.shared).items };
}

/// Why there is no name.
#[derive(Debug, Drop, Error)]
pub enum NameFault {
    /// The bytes are no name.
    #[error("not a name")]
    Bad,
    /// Memory was wanting.
    #[error("out of memory")]
    OutOfMemory,
}

impl Name {
    /// The name of these bytes; `Bad` exactly where they are none.
    pub fn new(alloc: Global, bytes: &[u8]) -> Result<Name, NameFault>
        ensures name { IfOk result (λ name. (name ≡ bytes.now) × IsName bytes.now) }
        ensures bad { IsErrOf result NameFault.Bad ↔ (¬ IsName bytes.now) }
    {
        if !is_name(bytes) {
            return Err(NameFault::Bad);
        }
        let owned = Vec::from_slice(alloc, bytes).map_err(|_| NameFault::OutOfMemory)?;
        let shared = Arc::new(alloc, owned).map_err(|_| NameFault::OutOfMemory)?;
        Ok(Name { shared })
    }

    /// The bytes of the name.
    pub fn bytes(&self) -> &[u8]
        ensures bytes { result.now ≡ self.now }
        ensures name { IsName self.now }
    {
        self.shared.as_slice()
    }

    /// One more owner of the name. It can be refused, as memory can.
    pub fn share(&self, _alloc: Global) -> Result<Name, AllocError>
        ensures { IfOk result (λ name. name ≡ self.now) }
    {
        let shared = Arc::try_clone(&self.shared)?;
        Ok(Name { shared })
    }
}

impl PartialEq for Name {
    ghost use Rattle.std.specs.Str.{bytes_eq};
    ghost use Rattle.std.specs.Cmp.{nat_eq_equiv, partial_equiv_from_equiv};
    ghost use Rattle.std.specs.Cmp.Lexicographic.{lists_per};

    ghost eq = { bytes_eq };

    ghost laws = { lists_per (partial_equiv_from_equiv nat_eq_equiv) };

    fn eq(&self, other: &Name) -> bool {
        self.bytes() == other.bytes()
    }
}

impl Eq for Name {
    ghost use Rattle.std.specs.Cmp.{nat_eq_equiv};
    ghost use Rattle.std.specs.Cmp.Lexicographic.{lists_equiv};

    ghost laws = { lists_equiv nat_eq_equiv };
}

fn is_name(bytes: &[u8]) -> bool
    ensures { result ≡ is_name bytes.now }
{
    1 <= bytes.len() && bytes.len() <= MAX_NAME && are_name_bytes(bytes)
}

fn are_name_bytes(bytes: &[u8]) -> bool
    ensures { result ≡ list_all is_name_byte bytes.now }
{
    bytes.iter().all(|byte| is_name_byte(*byte))
}

fn is_name_byte(byte: u8) -> bool
    ensures { result ≡ is_name_byte byte }
{
    byte.is_ascii_alphanumeric() || byte == b'_' || byte == b'.' || byte == b'-'
}
