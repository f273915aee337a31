//! Texts in UTF-8.
ghost use Rattle.std.specs.Prelude.{◌≡◌};
ghost use Rattle.std.specs.String.{string_bytes};

use std::marker::Model;

/// A text that contracts see as its bytes in UTF-8.
#[derive(Debug, Drop)]
pub struct Utf8Text {
    text: String,
}

impl Model for Utf8Text {
    ghost use Rattle.std.specs.Prelude.{ℕ, List};
    ghost use Rattle.std.specs.String.{string_bytes};

    ghost Value = { List ℕ };

    ghost view = { λ a. string_bytes a.text };
}

impl Utf8Text {
    /// The text of a `String`.
    pub fn of(text: String) -> Utf8Text
        ensures { result ≡ string_bytes text }
    {
        Utf8Text { text }
    }

    /// The text.
    pub fn as_str(&self) -> &str
        ensures { result.now ≡ self.now }
    {
        self.text.as_str()
    }

    /// The `String` that it was made of.
    pub fn into_string(self) -> String
        ensures { string_bytes result ≡ self }
    {
        self.text
    }
}
