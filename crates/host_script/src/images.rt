//! The images that a script declares.
ghost use Rattle.std.specs.Prelude.{◌≡◌, ◌<◌, ◌++◌, ◌∷◌, [], if◌then◌else◌, is_ok, length};
ghost use Rattle.std.specs.Prelude.{slice_get, None, IfErr};
ghost use Rattle.std.specs.Option.{option_copied};
ghost use Rattle.host_script.specs.Images.{names, number, line_at};

use cli_words::Utf8Text;
use indexmap::IndexMap;
use std::alloc::{AllocError, Global};
use std::marker::Model;

/// The line of an image.
#[derive(Drop)]
pub struct ImageLine {
    /// The line, counted from 1.
    pub line: u32,
    /// The path of the image's file.
    pub path: Utf8Text,
}

/// The images of a script by their names, in the order of their lines, which numbers them from 1.
/// Contracts see the list of the names, each with its line.
#[derive(Drop)]
pub struct ImageLines {
    by_name: IndexMap<Vec<u8>, ImageLine>,
}

impl Model for ImageLines {
    ghost use Rattle.std.specs.Prelude.{List, ℕ, map, length, ◌≤◌};
    ghost use Rattle.host_script.specs.declared.images.ImageLine.{ImageLine};

    ghost Value = { List (List ℕ × ImageLine) };

    ghost view = { λ a. map (λ e. (e.0.items, e.1)) a.by_name.entries };

    ghost invariant = { λ a. length a.by_name.entries ≤ 256 };
}

impl ImageLines {
    /// No images.
    pub fn new(alloc: Global) -> ImageLines
        ensures { result ≡ [] }
    {
        ImageLines {
            by_name: IndexMap::new(alloc),
        }
    }

    /// How many images there are.
    pub fn count(&self) -> usize
        ensures { result ≡ length self.now }
    {
        self.by_name.len()
    }

    /// The number of the image of this name, counted from 1; `None` exactly where there is none.
    pub fn number(&self, name: &[u8]) -> Option<u32>
        ensures { result ≡ number (names self.now) name.now }
    {
        let index = self.by_name.get_index_of(name)?;
        Some(index as u32 + 1)
    }

    /// The line of the image of this number, counted from 1; `None` exactly where there is none.
    pub fn line(&self, number: u32) -> Option<&ImageLine>
        ensures { option_copied result ≡ line_at self.now number }
    {
        let (_, line) = self.by_name.get_index(number.checked_sub(1)? as usize)?;
        Some(line)
    }

    /// Declares one more image, under a name that none has yet. Where memory is refused, nothing changes.
    pub fn declare(&mut self, alloc: Global, name: &[u8], line: ImageLine) -> Result<(), AllocError>
        requires few { length self.old < 256 }
        requires undeclared { number (names self.old) name.now ≡ None }
        ensures { self.new
            ≡ (if is_ok result then self.old ++ (name.now, line) ∷ [] else self.old) }
    {
        let key = Vec::from_slice(alloc, name)?;
        match self.by_name.insert(key, line) {
            Ok(_) => Ok(()),
            Err(_) => Err(AllocError),
        }
    }
}
