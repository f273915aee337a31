//! The lines of a script.
ghost use Rattle.std.specs.Prelude.{◌≡◌, ◌<◌, ◌∷◌, length};
ghost use Rattle.host_script.specs.Lines.{lines, without_cr, is_passed_over};

use crate::bytes::first_at;

/// The first line, and what follows it.
pub fn first_line(bytes: &[u8]) -> (&[u8], &[u8])
    requires { 0 < length bytes.now }
    ensures line { lines bytes.now ≡ result.0.now ∷ lines result.1.now }
    ensures shorter { length result.1.now < length bytes.now }
{
    let end = first_at(bytes, b'\n');
    if end == bytes.len() {
        return (bytes, &[]);
    }
    (without_cr(&bytes[..end]), &bytes[end + 1..])
}

/// The bytes without the one carriage return that may stand at their end.
fn without_cr(bytes: &[u8]) -> &[u8]
    ensures { result.now ≡ without_cr bytes.now }
{
    match bytes.split_last() {
        Some((last, front)) if *last == b'\r' => front,
        _ => bytes,
    }
}

/// Whether the line says nothing: it has no characters but spaces, or is a comment.
pub fn is_passed_over(line: &[u8]) -> bool
    ensures { result ≡ is_passed_over line.now }
{
    for byte in line {
        if *byte != b' ' {
            return *byte == b'#';
        }
    }
    true
}
