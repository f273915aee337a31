//! The rows of a module on their way into an image.
ghost use Rattle.std.specs.Prelude.{◌≡◌, ℕ, ◌-◌, ◌<◌, ◌≤◌, ◌^◌, IsTrue, false};
ghost use Rattle.std.specs.Prelude.{List, [], ◌∷◌, ◌++◌, length};
ghost use Rattle.image_maker.specs.declared.module.Cell.TheVariants.{Number, Text, Bytes};
ghost use Rattle.image_maker.specs.declared.module.MethodRow.{MethodRow};
ghost use Rattle.metadata_tables.specs.declared.schema.Column.TheVariants.{Strings, Blob};
ghost use Rattle.metadata_tables.specs.Layout.{width_of};
ghost use Rattle.image_maker.specs.File.{bodies_bytes, rva_by, round_up};
ghost use Rattle.image_maker.specs.Written.{Cells, Holds, Puts, compressed, is_kept, word};

use crate::module::MethodRow;
use metadata_tables::{Column, Layout};
use std::alloc::Global;

// Where memory has the first body.
const BODIES_ADDRESS: usize = 0x2048;

/// Rows as they are written, with the heaps that they point into and the bodies of the methods.
/// Once it lacked memory, it has failed for good, and what it holds is nothing to go by.
#[derive(Drop)]
pub(crate) struct Writer {
    pub(crate) alloc: Global,
    pub(crate) layout: Layout,
    pub(crate) rows: Vec<u8>,
    pub(crate) strings: Vec<u8>,
    pub(crate) blobs: Vec<u8>,
    pub(crate) bodies: Vec<u8>,
    pub(crate) failed: bool,
}

impl Writer {
    /// A writer that holds nothing yet.
    pub(crate) fn new(alloc: Global, layout: Layout) -> Writer
        ensures layout { result.layout ≡ layout }
        ensures holds { Holds [] [] result }
    {
        let mut writer = Writer {
            alloc,
            layout,
            rows: Vec::new(alloc),
            strings: Vec::new(alloc),
            blobs: Vec::new(alloc),
            bodies: Vec::new(alloc),
            failed: false,
        };
        writer.failed = writer.strings.push(0).is_err() || writer.blobs.push(0).is_err();
        writer
    }

    /// Puts a number into a column.
    pub(crate) fn number(&mut self, column: Column, value: u32)
        requires { IsTrue (is_kept (column, Number value)) }
        ensures { Puts ((column, Number value) ∷ []) self.old self.new }
    {
        self.word(column, value as usize);
    }

    /// Puts a text into a column of texts.
    pub(crate) fn text(&mut self, text: &str)
        ensures { Puts ((Strings, Text text.now) ∷ []) self.old self.new }
    {
        let bytes = text.as_bytes();
        if bytes.is_empty() {
            self.word(Column::Strings, 0);
            return;
        }
        let place = self.strings.len();
        self.word(Column::Strings, place);
        extend(&mut self.strings, &mut self.failed, bytes);
        extend(&mut self.strings, &mut self.failed, &[0]);
    }

    /// Puts a blob into a column of blobs.
    pub(crate) fn blob(&mut self, bytes: &[u8])
        ensures { Puts ((Blob, Bytes bytes.now) ∷ []) self.old self.new }
    {
        if bytes.is_empty() {
            self.word(Column::Blob, 0);
            return;
        }
        let place = self.blobs.len();
        self.word(Column::Blob, place);
        self.count(bytes.len());
        extend(&mut self.blobs, &mut self.failed, bytes);
    }

    // Puts the lowest bytes of a number into a column.
    fn word(&mut self, column: Column, value: usize)
        ensures layout { self.new.layout ≡ self.old.layout }
        ensures strings { self.new.strings ≡ self.old.strings }
        ensures blobs { self.new.blobs ≡ self.old.blobs }
        ensures bodies { self.new.bodies ≡ self.old.bodies }
        ensures rows { self.new.failed ≡ false → (self.old.failed ≡ false)
            × (self.new.rows.items
            ≡ self.old.rows.items ++ word (width_of self.old.layout column) value) }
    {
        let bytes = value.to_le_bytes();
        let len = self.layout.width(column).len();
        extend(&mut self.rows, &mut self.failed, &bytes[..len]);
    }

    // Puts the count of a blob's bytes into the heap of blobs.
    fn count(&mut self, len: usize)
        ensures layout { self.new.layout ≡ self.old.layout }
        ensures rows { self.new.rows ≡ self.old.rows }
        ensures strings { self.new.strings ≡ self.old.strings }
        ensures bodies { self.new.bodies ≡ self.old.bodies }
        ensures blobs { self.new.failed ≡ false → (self.old.failed ≡ false)
            × (self.new.blobs.items ≡ self.old.blobs.items ++ compressed len) }
    {
        let bytes = [
            ((0xC0 + len / 0x100_0000) % 0x100) as u8,
            (len / 0x1_0000 % 0x100) as u8,
            (len / 0x100 % 0x100) as u8,
            (len % 0x100) as u8,
        ];
        if len < 0x80 {
            extend(&mut self.blobs, &mut self.failed, &bytes[3..]);
        } else if len < 0x4000 {
            let spelled = [0x80 + bytes[2], bytes[3]];
            extend(&mut self.blobs, &mut self.failed, &spelled);
        } else {
            extend(&mut self.blobs, &mut self.failed, &bytes);
        }
    }

    /// Puts the body of a method, and gives the RVA of the method.
    pub(crate) fn body(&mut self, method: &MethodRow) -> u32
        ensures layout { self.new.layout ≡ self.old.layout }
        ensures holds { (cells : Cells) (methods : List MethodRow) → Holds cells methods self.old
            → Holds cells (methods ++ method.now ∷ []) self.new }
        ensures rva { (cells : Cells) (methods : List MethodRow) → Holds cells methods self.old
            → self.new.failed ≡ false → length (bodies_bytes methods) < 2 ^ 31
            → result ≡ rva_by methods method.now.body }
    {
        let Some(body) = &method.body else {
            return 0;
        };
        // No image that is made has bodies of 2 GiB, so the remainder changes nothing.
        let rva = (BODIES_ADDRESS + self.bodies.len() % (1 << 31)) as u32;
        let bytes = body.items();
        let zeros = &[0; 3][..padding(bytes.len())];
        extend(&mut self.bodies, &mut self.failed, bytes);
        extend(&mut self.bodies, &mut self.failed, zeros);
        rva
    }
}

// Puts bytes at the end, and notes where memory lacks for them.
fn extend(buffer: &mut Vec<u8>, failed: &mut bool, bytes: &[u8])
    ensures { failed.new ≡ false → (failed.old ≡ false)
        × (buffer.new.items ≡ buffer.old.items ++ bytes.now) }
{
    let lacks = buffer.extend_from_slice(bytes).is_err();
    *failed = *failed || lacks;
}

// How many bytes there are from a length to the next multiple of four.
fn padding(len: usize) -> usize
    ensures value { result ≡ round_up 4 len - len }
    ensures small { result ≤ 3 }
{
    (4 - len % 4) % 4
}
