//! Compressed unsigned numbers.
ghost use Rattle.std.specs.Prelude.{◌≡◌, ℕ, ◌+◌, ◌≤◌, drop, length, take, IfSome, MatchOption};
ghost use Rattle.cli_words.specs.Compressed.{number_at_front, Spells};

/// The number that is spelled at `at`, and how many bytes its spelling takes: 1, 2 or 4. `None`
/// exactly where the first byte is missing, or E0 or more, or the spelling is cut.
/// ECMA-335 II.23.2.
pub fn read_compressed(bytes: &[u8], at: usize) -> Option<(u32, usize)>
    ensures value { result ≡ number_at_front (drop at bytes.now) }
    ensures within { IfSome result (λ found. at + found.1 ≤ length bytes.now) }
    ensures spelled { MatchOption result
        ((n : ℕ) (taken : ℕ) → ¬ Spells (take taken (drop at bytes.now)) n)
        (λ found. Spells (take found.1 (drop at bytes.now)) found.0) }
{
    first_compressed(bytes.get(at..)?)
}

fn first_compressed(bytes: &[u8]) -> Option<(u32, usize)>
    ensures within { IfSome result (λ found. found.1 ≤ length bytes.now) }
    ensures value { result ≡ number_at_front bytes.now }
{
    match bytes {
        [a @ 0..0x80, ..] => Some((u32::from(*a), 1)),
        [a @ 0x80..0xC0, b, ..] => Some((u32::from_be_bytes([0, 0, *a - 0x80, *b]), 2)),
        [a @ 0xC0..0xE0, b, c, d, ..] => Some((u32::from_be_bytes([*a - 0xC0, *b, *c, *d]), 4)),
        _ => None,
    }
}
