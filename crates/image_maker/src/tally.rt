//! Texts and bytes are counted before anything is written.
ghost use Rattle.std.specs.Prelude.{◌≡◌, [], ◌∷◌, ◌+◌, ◌&&◌, length, min, nat_le};
ghost use Rattle.std.specs.List.{flat_map, sum_by};
ghost use Rattle.cli_words.specs.Text.{bytes_of};
ghost use Rattle.image_maker.specs.Sound as spec;
ghost use Rattle.image_maker.specs.Tally.{Adds, empty, most};
ghost use Rattle.image_maker.specs.Size.{name_limit};

use crate::units::{has_no_zero, utf8_len};
use cli_words::Utf8Text;

/// The most bytes of a name.
const NAME_LIMIT: u64 = 1023;

/// What is counted of texts and bytes.
#[derive(Drop)]
pub(crate) struct Tally {
    /// No text has a character 0.
    pub(crate) has_no_zero: bool,
    /// No text has more than 1,023 bytes.
    pub(crate) is_short: bool,
    /// How many bytes they add, at most `u64::MAX`.
    pub(crate) size: u64,
}

/// What is counted.
pub(crate) trait Counted {
    ghost use Rattle.std.specs.Prelude.{ℕ, List};

    /// Its texts.
    ghost texts: { Self → List (List ℕ) };

    /// How many bytes it adds beside them.
    ghost bytes: { Self → ℕ };

    fn count(&self, tally: &mut Tally)
        ensures { Adds (texts self.now) (bytes self.now) tally.old tally.new };
}

/// Counts all of them.
pub(crate) fn count_all<T: Counted>(items: &[T], tally: &mut Tally)
    ensures { Adds (flat_map T.texts items.now) (sum_by T.bytes items.now) tally.old tally.new }
{
    for item in items {
        item.count(tally);
    }
}

impl Tally {
    /// Nothing is counted.
    pub(crate) fn new() -> Tally
        ensures { result ≡ empty }
    {
        Tally {
            has_no_zero: true,
            is_short: true,
            size: 0,
        }
    }

    /// Counts a text.
    pub(crate) fn text(&mut self, text: &Utf8Text)
        ensures { Adds (text.now ∷ []) 0 self.old self.new }
    {
        let bytes = text.as_str().as_bytes();
        self.name(is_without_zero(bytes), bytes.len() as u64);
    }

    /// Counts a text in UTF-16.
    pub(crate) fn units(&mut self, units: &[u16])
        ensures { Adds (bytes_of units.now ∷ []) 0 self.old self.new }
    {
        self.name(has_no_zero(units), utf8_len(units));
    }

    fn name(&mut self, has_no_zero: bool, len: u64)
        ensures zero { self.new.has_no_zero ≡ (self.old.has_no_zero && has_no_zero) }
        ensures short { self.new.is_short ≡ (self.old.is_short && nat_le len name_limit) }
        ensures size { self.new.size ≡ min (self.old.size + (len + 1)) most }
    {
        self.has_no_zero = self.has_no_zero && has_no_zero;
        self.is_short = self.is_short && len <= NAME_LIMIT;
        self.bytes(len);
        self.bytes(1);
    }

    /// Counts as many bytes.
    pub(crate) fn bytes(&mut self, count: u64)
        ensures { Adds [] count self.old self.new }
    {
        self.size = self.size.saturating_add(count);
    }

    /// Counts a blob, and these bytes beside it.
    pub(crate) fn blob(&mut self, blob: &[u8], more: u64)
        ensures { Adds [] (length blob.now + more) self.old self.new }
    {
        self.bytes(blob.len() as u64);
        self.bytes(more);
    }
}

fn is_without_zero(bytes: &[u8]) -> bool
    ensures { result ≡ spec.has_no_zero bytes.now }
{
    bytes.iter().all(|byte| *byte != 0)
}
