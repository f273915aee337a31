//! The words of a line.
ghost use Rattle.std.specs.Prelude.{◌≡◌, ◌++◌, IfOk, OnOk};
ghost use Rattle.host_script.specs.Words.{texts, words, word, after_byte, is_between, unless_empty};

use std::alloc::{AllocError, Global};

/// Where a byte of a line stands.
#[derive(Clone, Copy)]
pub enum Standing {
    /// Between words.
    Between,
    /// In a word, and in no text.
    Bare,
    /// In a text.
    Quoted,
    /// In a text, right after a backslash.
    Escaped,
}

impl Standing {
    /// Where the byte that follows this one stands.
    fn after(self, byte: u8) -> Standing
        ensures { result ≡ after_byte self byte }
    {
        match self {
            Standing::Between if byte == b'"' => Standing::Quoted,
            Standing::Between | Standing::Bare if byte == b' ' => Standing::Between,
            Standing::Between | Standing::Bare => Standing::Bare,
            Standing::Quoted if byte == b'"' => Standing::Bare,
            Standing::Quoted if byte == b'\\' => Standing::Escaped,
            Standing::Quoted | Standing::Escaped => Standing::Quoted,
        }
    }

    fn is_between(self) -> bool
        ensures { result ≡ is_between self }
    {
        matches!(self, Standing::Between)
    }
}

/// The words of a line. Spaces part them, but for those in a text.
pub fn words(alloc: Global, line: &[u8]) -> Result<Vec<&[u8]>, AllocError>
    ensures { IfOk result (λ found. texts found.items ≡ words line.now) }
{
    let mut found = Vec::new(alloc);
    let mut standing = Standing::Between;
    let mut start = 0;
    for (at, byte) in line.iter().enumerate() {
        standing = standing.after(*byte);
        if standing.is_between() {
            push_word(&mut found, &line[start..at])?;
            start = at + 1;
        }
    }
    push_word(&mut found, &line[start..])?;
    Ok(found)
}

/// Puts the bytes at the end of the words, unless they are none.
fn push_word<'a>(words: &mut Vec<&'a [u8]>, bytes: &'a [u8]) -> Result<(), AllocError>
    ensures { OnOk result
        (texts words.new.items ≡ texts words.old.items ++ unless_empty bytes.now) }
{
    if !bytes.is_empty() {
        words.push(bytes)?;
    }
    Ok(())
}

/// The word at a place, the first being at 0; empty where the line has none there.
pub fn word<'a>(words: &[&'a [u8]], at: usize) -> &'a [u8]
    ensures { result.now ≡ word (texts words.now) at }
{
    match words.get(at) {
        Some(word) => word,
        None => &[],
    }
}
