// Sources of files: the trait, and two sources that live in memory.
ghost use Rattle.std.specs.Prelude.{◌≡◌, ℕ, ◌+◌, ◌-◌, ◌^◌, ◌≤◌, ◌↔◌, List, length, min};
ghost use Rattle.std.specs.Prelude.{Option, Some, IsTrue, IfSome, Contains, find};
ghost use Rattle.std.specs.Option.{option_copied};
ghost use Rattle.std.specs.Str.{bytes_eq};
ghost use Rattle.plug_io.specs.Faults.{HasRisen, count_after};
ghost use Rattle.plug_io.specs.Files.{held_at, entries_of, path_of};
ghost use Rattle.plug_io.specs.Found.{IfBytes, OnFailed, IsAnswer, is_failed};

use std::alloc::Global;

/// What a read of a file answers.
#[derive(Debug, Drop)]
pub enum Found {
    /// The content, of at most as many bytes as the limit.
    Bytes(Vec<u8>),
    /// Nothing stands at the path.
    Absent,
    /// The content is longer than the limit.
    TooLong,
    /// The source failed: its count of faults rose, or stands at its last value.
    Failed,
    /// There was no memory for the content.
    OutOfMemory,
}

/// A source of files.
///
/// `held` is what stands at each path, where the source tells it: pairs of a path's bytes and a
/// content, of which the first of a path counts. `faults` is how often the source has failed.
pub trait Files {
    ghost held: { Self → Option (List (List ℕ × List ℕ)) };

    ghost faults: { Self → ℕ };

    /// The file at `path`, if it has at most `limit` bytes. Where the source tells what it holds, a
    /// call that neither fails nor lacks memory answers `Absent` exactly where nothing stands there
    /// and `TooLong` exactly where the file is longer. `Failed` comes only with a fault counted.
    fn read(&mut self, alloc: Global, path: &str, limit: usize) -> Found
        ensures within { IfBytes result (λ bytes. length bytes ≤ limit) }
        ensures found { IfSome (held self.old) (λ entries.
            IsAnswer (held_at entries path.now) limit result) }
        ensures failed { OnFailed result (HasRisen (faults self.old) (faults self.new)) }

        // What is held never changes. The count never falls, and its last value stays.
        ensures held { held self.new ≡ held self.old }
        ensures faults { faults self.old ≤ faults self.new }
        ensures last { faults self.old ≡ 2 ^ 64 - 1 → faults self.new ≡ 2 ^ 64 - 1 };
}

/// Files in memory, of which chosen reads fail.
#[derive(Debug, Drop)]
pub struct MemFiles {
    /// Paths and their contents; the first entry of a path counts.
    pub held: Vec<(String, Vec<u8>)>,
    /// The reads that fail, counted from 1.
    pub fail_at: Vec<u64>,
    /// How many reads there were; it stands still at its last value.
    pub calls: u64,
    /// How many of them failed; it stands still at its last value.
    pub faults: u64,
}

/// Files in memory that never fail.
#[derive(Debug, Drop)]
pub struct SureFiles {
    /// Paths and their contents; the first entry of a path counts.
    pub held: Vec<(String, Vec<u8>)>,
}

impl Files for MemFiles {
    ghost held = { λ files. Some (entries_of files.held.items) };

    ghost faults = { λ files. files.faults };

    /// A read fails exactly where its number stands in `fail_at`, and counts a fault then alone.
    fn read(&mut self, alloc: Global, path: &str, limit: usize) -> Found
        ensures within { IfBytes result (λ bytes. length bytes ≤ limit) }
        ensures found { IsAnswer (held_at (entries_of self.old.held.items) path.now) limit result }
        ensures failed { OnFailed result (HasRisen self.old.faults self.new.faults) }
        ensures faults { self.old.faults ≤ self.new.faults }
        ensures last { self.old.faults ≡ 2 ^ 64 - 1 → self.new.faults ≡ 2 ^ 64 - 1 }

        ensures calls { self.new.calls ≡ min (self.old.calls + 1) (2 ^ 64 - 1) }
        ensures fails { IsTrue (is_failed result) ↔ Contains self.old.fail_at.items self.new.calls }
        ensures count { self.new.faults ≡ count_after self.old.faults (is_failed result) }
        ensures held { self.new.held ≡ self.old.held }
        ensures fail_at { self.new.fail_at ≡ self.old.fail_at }
    {
        self.calls = self.calls.saturating_add(1);
        if self.fail_at.contains(&self.calls) {
            self.faults = self.faults.saturating_add(1);
            return Found::Failed;
        }
        find_held(&self.held, alloc, path, limit)
    }
}

impl Files for SureFiles {
    ghost held = { λ files. Some (entries_of files.held.items) };

    ghost faults = { λ _. 0 };

    /// It never answers `Failed`.
    fn read(&mut self, alloc: Global, path: &str, limit: usize) -> Found
        ensures within { IfBytes result (λ bytes. length bytes ≤ limit) }
        ensures found { IsAnswer (held_at (entries_of self.old.held.items) path.now) limit result }
        ensures sure { OnFailed result ⊥ }
        ensures held { self.new.held ≡ self.old.held }
    {
        find_held(&self.held, alloc, path, limit)
    }
}

// A copy of what is held at a path.
fn find_held(held: &[(String, Vec<u8>)], alloc: Global, path: &str, limit: usize) -> Found
    ensures found { IsAnswer (held_at (entries_of held.now) path.now) limit result }
    ensures sure { OnFailed result ⊥ }
{
    match entry_at(held, path) {
        None => Found::Absent,
        Some(entry) => copy_within(&entry.1, alloc, limit),
    }
}

// The first entry of a path.
fn entry_at<'a>(held: &'a [(String, Vec<u8>)], path: &str) -> Option<&'a (String, Vec<u8>)>
    ensures { option_copied result ≡ find (λ file. bytes_eq (path_of file) path.now) held.now }
{
    held.iter().find(|entry| entry.0.as_str() == path)
}

// A copy of a content that is not too long.
fn copy_within(content: &[u8], alloc: Global, limit: usize) -> Found
    ensures found { IsAnswer (Some content.now) limit result }
    ensures sure { OnFailed result ⊥ }
{
    if content.len() > limit {
        return Found::TooLong;
    }
    match content.to_vec(alloc) {
        Ok(bytes) => Found::Bytes(bytes),
        Err(_) => Found::OutOfMemory,
    }
}
