//! Places in a list of bytes.
ghost use Rattle.std.specs.Prelude.{◌≡◌, length};
ghost use Rattle.cli_words.specs.Span.{LiesIn, lies_in, cut, zero_after};

/// The `len` bytes from byte `at` on. It may run past the end of its list.
#[derive(Clone, Copy, PartialEq, Eq, Debug)]
pub struct Span {
    pub at: usize,
    pub len: usize,
}

impl Span {
    /// Whether the whole span lies in `len` bytes.
    pub fn lies_in(self, len: usize) -> bool
        ensures { result ≡ lies_in len self }
    {
        self.at <= len && self.len <= len - self.at
    }

    /// The bytes of the span.
    pub fn cut(self, bytes: &[u8]) -> &[u8]
        requires { LiesIn (length bytes.now) self }
        ensures { result.now ≡ cut bytes.now self }
    {
        &bytes[self.at..][..self.len]
    }
}

/// How many bytes stand before the first zero; `None` exactly where no byte is 0.
pub fn zero_after(bytes: &[u8]) -> Option<usize>
    ensures { result ≡ zero_after bytes.now }
{
    bytes.iter().position(|b| *b == 0)
}
