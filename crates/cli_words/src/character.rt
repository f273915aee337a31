//! The characters of texts in UTF-16.
ghost use Rattle.std.specs.Prelude.{◌≡◌, ◌<◌, ◌&&◌, length};
ghost use Rattle.std.specs.Char.Utf16.{lone_unit_char, is_high_surrogate, is_low_surrogate};
ghost use Rattle.cli_words.specs.Character.{IsFirst, begins_with_pair};

/// The first character that the units spell, `None` exactly for a surrogate that is in no pair, and
/// how many units spell it: 2 for a pair, else 1. Unicode 3.9.
pub fn first_character(units: &[u16]) -> (Option<u32>, usize)
    requires { 0 < length units.now }
    ensures { IsFirst units.now result }
{
    if begins_with_pair(units) {
        let code = 0x1_0000 + (units[0] as u32 - 0xd800) * 0x400 + (units[1] as u32 - 0xdc00);
        return (Some(code), 2);
    }
    (lone(units[0]), 1)
}

fn begins_with_pair(units: &[u16]) -> bool
    ensures { result ≡ begins_with_pair units.now }
{
    2 <= units.len() && is_pair(units[0], units[1])
}

fn lone(unit: u16) -> Option<u32>
    ensures { result ≡ lone_unit_char unit }
{
    match unit {
        0xd800..0xe000 => None,
        _ => Some(unit as u32),
    }
}

fn is_pair(high: u16, low: u16) -> bool
    ensures { result ≡ (is_high_surrogate high && is_low_surrogate low) }
{
    matches!(high, 0xd800..0xdc00) && matches!(low, 0xdc00..0xe000)
}
