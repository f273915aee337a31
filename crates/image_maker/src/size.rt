//! How large the image of a module may get.
ghost use Rattle.std.specs.Prelude.{◌≡◌, ◌+◌, ◌-◌, ◌^◌, [], ◌∷◌, length, min, map, sum};
ghost use Rattle.std.specs.List.{sum_by, flat_map};
ghost use Rattle.image_maker.specs.Size as spec;
ghost use Rattle.image_maker.specs.Sound.{all_texts};
ghost use Rattle.image_maker.specs.Tally.{Adds, empty, method_bytes, module_bytes};

use crate::counts::{field_count, method_count};
use crate::module::{Cell, FieldRow, MemberRow, MethodRow, Module, TypeRefRow, TypeRow};
use crate::tally::{Counted, Tally, count_all};
use assembly_name::AssemblyRef;
use cli_words::{Listed, Utf8Text};

/// What headers and padding may take.
const HEADERS: u64 = 8192;

/// What a row takes at most.
const ROW: u64 = 40;

/// What a blob may take beside its bytes.
const BLOB: u64 = 4;

/// What a body may take beside its bytes.
const BODY: u64 = 3;

/// What a stream may take beside its bytes.
const STREAM: u64 = 64;

impl Module {
    /// A bound on the length of the module's image in bytes, at most `u64::MAX`. It speaks of every
    /// module: a row counts, too, that is given for a table that a module may not have.
    pub fn size(&self) -> u64
        ensures { result ≡ min (spec.size_of self.now) (2 ^ 64 - 1) }
    {
        HEADERS
            .saturating_add(ROW.saturating_mul(self.row_total()))
            .saturating_add(self.tally().size)
    }

    fn row_total(&self) -> u64
        ensures { result ≡ min (spec.row_count self.now) (2 ^ 64 - 1) }
    {
        let types = self.types.items();
        sum_of(&[
            2,
            len_of(&self.refs),
            len_of(&self.type_refs),
            len_of(&self.types),
            field_count(types),
            method_count(types),
            len_of(&self.members),
            len_of(&self.specs),
            len_of(&self.rows),
        ])
    }

    /// What is counted of the module's texts and bytes.
    pub(crate) fn tally(&self) -> Tally
        ensures { Adds (all_texts self.now) (module_bytes self.now) empty result }
    {
        let mut tally = Tally::new();
        tally.text(&self.name);
        count_all(self.refs.items(), &mut tally);
        count_all(self.type_refs.items(), &mut tally);
        count_all(self.types.items(), &mut tally);
        count_fields(self.types.items(), &mut tally);
        count_methods(self.types.items(), &mut tally);
        count_all(self.members.items(), &mut tally);
        count_all(self.rows.items(), &mut tally);
        count_all(self.specs.items(), &mut tally);
        count_all(self.streams.items(), &mut tally);
        tally.blob(self.user_strings.items(), 0);
        tally.blob(self.guids.items(), 0);
        tally
    }
}

fn len_of<T>(list: &Listed<T>) -> u64
    ensures { result ≡ length list.now }
{
    list.items().len() as u64
}

fn sum_of(parts: &[u64]) -> u64
    ensures { result ≡ min (sum parts.now) (2 ^ 64 - 1) }
{
    let mut total: u64 = 0;
    for part in parts {
        total = total.saturating_add(*part);
    }
    total
}

fn count_fields(types: &[TypeRow], tally: &mut Tally)
    ensures { Adds (map (λ f. f.name) (flat_map (λ t. t.fields) types.now))
        (sum_by (λ f. length f.sig + 4) (flat_map (λ t. t.fields) types.now)) tally.old tally.new }
{
    for item in types {
        count_all(item.fields.items(), tally);
    }
}

fn count_methods(types: &[TypeRow], tally: &mut Tally)
    ensures { Adds (map (λ f. f.name) (flat_map (λ t. t.methods) types.now))
        (sum_by method_bytes (flat_map (λ t. t.methods) types.now)) tally.old tally.new }
{
    for item in types {
        count_all(item.methods.items(), tally);
    }
}

impl Counted for AssemblyRef {
    ghost use Rattle.std.specs.Prelude.{[], ◌∷◌};
    ghost use Rattle.cli_words.specs.Text.{bytes_of};

    ghost texts = { λ r. bytes_of r.name ∷ [] };

    ghost bytes = { λ _. 0 };

    fn count(&self, tally: &mut Tally) {
        tally.units(self.name.units().units());
    }
}

impl Counted for TypeRefRow {
    ghost use Rattle.std.specs.Prelude.{[], ◌∷◌};

    ghost texts = { λ t. t.name ∷ t.space ∷ [] };

    ghost bytes = { λ _. 0 };

    fn count(&self, tally: &mut Tally) {
        tally.text(&self.name);
        tally.text(&self.space);
    }
}

impl Counted for TypeRow {
    ghost use Rattle.std.specs.Prelude.{[], ◌∷◌};

    ghost texts = { λ t. t.name ∷ t.space ∷ [] };

    ghost bytes = { λ _. 0 };

    fn count(&self, tally: &mut Tally) {
        tally.text(&self.name);
        tally.text(&self.space);
    }
}

impl Counted for FieldRow {
    ghost use Rattle.std.specs.Prelude.{[], ◌∷◌, ◌+◌, length};

    ghost texts = { λ f. f.name ∷ [] };

    ghost bytes = { λ f. length f.sig + 4 };

    fn count(&self, tally: &mut Tally) {
        tally.text(&self.name);
        tally.blob(self.sig.items(), BLOB);
    }
}

impl Counted for MethodRow {
    ghost use Rattle.std.specs.Prelude.{[], ◌∷◌};
    ghost use Rattle.image_maker.specs.Tally.{method_bytes};

    ghost texts = { λ f. f.name ∷ [] };

    ghost bytes = { method_bytes };

    fn count(&self, tally: &mut Tally) {
        tally.text(&self.name);
        tally.blob(self.sig.items(), BLOB);
        if let Some(body) = &self.body {
            tally.blob(body.items(), BODY);
        }
    }
}

impl Counted for MemberRow {
    ghost use Rattle.std.specs.Prelude.{[], ◌∷◌, ◌+◌, length};

    ghost texts = { λ f. f.name ∷ [] };

    ghost bytes = { λ f. length f.sig + 4 };

    fn count(&self, tally: &mut Tally) {
        tally.text(&self.name);
        tally.blob(self.sig.items(), BLOB);
    }
}

impl Counted for Listed<u8> {
    ghost use Rattle.std.specs.Prelude.{[], ◌+◌, length};

    ghost texts = { λ _. [] };

    ghost bytes = { λ blob. length blob + 4 };

    fn count(&self, tally: &mut Tally) {
        tally.blob(self.items(), BLOB);
    }
}

impl Counted for Cell {
    ghost use Rattle.std.specs.Prelude.{[], ◌∷◌, ◌+◌, length};
    ghost use Rattle.image_maker.specs.Tally.{cell_texts, cell_bytes};

    ghost texts = { cell_texts };

    ghost bytes = { cell_bytes };

    fn count(&self, tally: &mut Tally) {
        match self {
            Cell::Number(_) => tally.bytes(0),
            Cell::Text(text) => tally.text(text),
            Cell::Bytes(blob) => tally.blob(blob.items(), BLOB),
        }
    }
}

impl Counted for (u8, Listed<Cell>) {
    ghost use Rattle.std.specs.List.{flat_map, sum_by};
    ghost use Rattle.image_maker.specs.Tally.{cell_texts, cell_bytes};

    ghost texts = { λ r. flat_map cell_texts r.1 };

    ghost bytes = { λ r. sum_by cell_bytes r.1 };

    fn count(&self, tally: &mut Tally) {
        count_all(self.1.items(), tally);
    }
}

impl Counted for (Utf8Text, Listed<u8>) {
    ghost use Rattle.std.specs.Prelude.{[], ◌+◌, length};

    ghost texts = { λ _. [] };

    ghost bytes = { λ s. length s.1 + 64 };

    fn count(&self, tally: &mut Tally) {
        tally.blob(self.1.items(), STREAM);
    }
}
