//! The counts at the head of a stream.
ghost use Rattle.std.specs.Prelude.{◌≡◌, ◌+◌, ◌*◌, if◌then◌else◌, ◌<◌, ◌≤◌, length, slice_index};
ghost use Rattle.std.specs.Prelude.{IsTrue};
ghost use Rattle.cli_words.specs.Span.{LiesIn};
ghost use Rattle.metadata_tables.specs.Layout.{is_set};
ghost use Rattle.metadata_tables.specs.Reading as spec;

use crate::layout::{Layout, is_set};
use crate::schema::columns;
use crate::table::TABLE_COUNT;
use cli_words::{Span, u32_at, u64_at};

/// The bits of the tables that the stream at `at` has.
#[tactic(auto, unfolding(crate::specs::Reading::valid_of))]
fn valid(bytes: &[u8], at: usize) -> u64
    requires { at + 24 ≤ length bytes.now }
    ensures { result ≡ spec.valid_of bytes.now at }
{
    u64_at(bytes, at + 8)
}

fn count_size(valid: u64, table: u8) -> usize
    requires { table < 64 }
    ensures { result ≡ 4 * (if is_set valid table then 1 else 0) }
{
    if is_set(valid, table) { 4 } else { 0 }
}

/// The places of the counts of the tables 00 to 3F, and the place after the counts.
pub fn count_places(bytes: &[u8], at: usize) -> [usize; 65]
    requires { at + 24 ≤ length bytes.now }
    ensures { spec.ArePlaces bytes.now at result }
{
    let valid = valid(bytes, at);
    let mut places = [at + 24; 65];
    for table in 0..64_u8 {
        let size = count_size(valid, table);
        let index = usize::from(table);
        places[index + 1] = places[index] + size;
    }
    places
}

/// How many rows a table is said to have, where its count lies in the bytes.
fn count(bytes: &[u8], at: usize, place: usize, table: u8) -> u32
    requires head { at + 24 ≤ length bytes.now }
    requires bit { table < 64 }
    requires place { place ≡ spec.count_at bytes.now at table }
    requires lies { IsTrue (is_set (spec.valid_of bytes.now at) table)
        → place + 4 ≤ length bytes.now }
    ensures { result ≡ spec.count_in bytes.now at table }
{
    if is_set(valid(bytes, at), table) {
        u32_at(bytes, place)
    } else {
        0
    }
}

fn is_allowed(bytes: &[u8], stream: Span, place: usize, table: u8) -> bool
    requires head { 24 ≤ stream.len }
    requires lies { LiesIn (length bytes.now) stream }
    requires bit { table < 64 }
    requires place { place ≡ spec.count_at bytes.now stream.at table }
    ensures { result ≡ spec.is_allowed bytes.now stream table }
{
    !is_set(valid(bytes, stream.at), table)
        || (!columns(table).is_empty()
            && (stream.at + stream.len < place + 4
                || count(bytes, stream.at, place, table) < 1 << 24))
}

/// No table of the stream is refused, and no count that lies whole in it is 2^24 or more.
pub fn are_allowed(bytes: &[u8], stream: Span, places: &[usize; 65]) -> bool
    requires head { 24 ≤ stream.len }
    requires lies { LiesIn (length bytes.now) stream }
    requires places { spec.ArePlaces bytes.now stream.at places.now }
    ensures { result ≡ spec.are_allowed bytes.now stream }
{
    for table in 0..64_u8 {
        if !is_allowed(bytes, stream, places[usize::from(table)], table) {
            return false;
        }
    }
    true
}

/// What the stream at `at` says of its tables, where all its counts lie in the bytes.
pub fn read_layout(bytes: &[u8], at: usize, places: &[usize; 65]) -> Layout
    requires head { at + 24 ≤ length bytes.now }
    requires places { spec.ArePlaces bytes.now at places.now }
    requires lies { spec.count_at bytes.now at 64 ≤ length bytes.now }
    ensures { result ≡ spec.layout_of bytes.now at }
{
    let mut counts = [0; TABLE_COUNT];
    for table in 0..TABLE_COUNT as u8 {
        let index = usize::from(table);
        counts[index] = count(bytes, at, places[index], table);
    }
    Layout {
        rows_at: places[64],
        heap_sizes: bytes[at + 6],
        counts,
    }
}
