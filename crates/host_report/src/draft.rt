// A report, as far as it was read.
ghost use Rattle.std.specs.Prelude.{◌≡◌, [], ◌∷◌, ◌++◌, Some, None, if◌then◌else◌};
ghost use Rattle.host_report.specs.LineStages.{Stage, is_due, is_in_threads, journal_after, stage};
ghost use Rattle.host_report.specs.LineStages.{start_after, thread_after, told_after};
ghost use Rattle.host_report.specs.Reading.{Reads};
ghost use Rattle.host_report.specs.declared.draft.Part.{Part};

use crate::told::Told;
use crate::unread::Unread;
use cli_words::Units;
use host_events::{CommandEnd, End, Entry, Lines, Listed, Outcome};
use std::alloc::Global;
use std::mem;

/// How much of a report was read.
#[derive(Clone, Copy)]
pub(crate) enum Part {
    /// Nothing.
    Head,
    /// Its first line.
    Start,
    /// Lines of threads, of which the last has not ended.
    Threads,
    /// All threads, and lines of the journal, which has not ended.
    Journal,
    /// All of it.
    Whole,
}

/// What was read of a report.
#[derive(Drop)]
pub(crate) struct Draft {
    pub part: Part,
    /// How the commands ended of each thread that ended.
    pub ends: Vec<End>,
    /// The commands of the thread after these.
    pub commands: Vec<CommandEnd>,
    /// What the next command printed.
    pub printed: Vec<Units>,
    /// How many entries the journal has.
    pub count: u32,
    /// Those so far.
    pub entries: Vec<Entry>,
}

impl Draft {
    /// Before the first line.
    pub fn new(alloc: Global) -> Draft
        ensures { stage result ≡ Stage.Head }
    {
        Draft {
            part: Part::Head,
            ends: Vec::new(alloc),
            commands: Vec::new(alloc),
            printed: Vec::new(alloc),
            count: 0,
            entries: Vec::new(alloc),
        }
    }

    /// Takes the next line behind the first. `Differs` where no report goes on so.
    pub fn take(&mut self, alloc: Global, told: Told) -> Result<(), Unread>
        ensures { Reads (λ _. stage self.new) result (told_after (stage self.old) told) }
    {
        match told {
            Told::Thread(thread) => self.take_thread(alloc, thread),
            Told::Print(printed) => self.take_print(printed),
            Told::Outcome(outcome) => self.take_outcome(alloc, outcome),
            Told::Journal(count) => self.take_journal(alloc, count),
            Told::Entry(number, entry) => self.take_entry(number, entry),
            Told::End => self.take_end(),
        }
    }

    fn take_thread(&mut self, alloc: Global, thread: u32) -> Result<(), Unread>
        ensures { Reads (λ _. stage self.new) result
            (told_after (stage self.old) (Told.Thread thread)) }
    {
        match self.part {
            Part::Start => self.begin_thread(thread),
            Part::Threads => self.next_thread(alloc, thread),
            Part::Head | Part::Journal | Part::Whole => Err(Unread::Differs),
        }
    }

    // The first thread begins.
    fn begin_thread(&mut self, thread: u32) -> Result<(), Unread>
        ensures { Reads (λ _. stage self.new) result (start_after (Told.Thread thread)) }
    {
        if thread != 1 {
            return Err(Unread::Differs);
        }
        self.part = Part::Threads;
        self.ends.clear();
        self.commands.clear();
        self.printed.clear();
        Ok(())
    }

    // The next thread begins.
    fn next_thread(&mut self, alloc: Global, thread: u32) -> Result<(), Unread>
        requires { self.old.part ≡ Part.Threads }
        ensures { Reads (λ _. stage self.new) result
            (thread_after self.old.ends.items self.old.commands.items self.old.printed.items
            (Told.Thread thread)) }
    {
        if !self.printed.is_empty() || thread as usize != self.ends.len() + 2 {
            return Err(Unread::Differs);
        }
        self.end_thread(alloc)
    }

    // The last thread ends.
    fn end_thread(&mut self, alloc: Global) -> Result<(), Unread>
        ensures ended { Reads (λ _. self.new.ends.items) result
            (Some (self.old.ends.items ++ self.old.commands.items ∷ [])) }
        ensures empty { self.new.commands.items ≡ [] }
        ensures part { self.new.part ≡ self.old.part }
        ensures printed { self.new.printed ≡ self.old.printed }
        ensures entries { self.new.entries ≡ self.old.entries }
    {
        let commands = mem::replace(&mut self.commands, Vec::new(alloc));
        push(&mut self.ends, Listed::of(commands), true)
    }

    // The next command prints.
    fn take_print(&mut self, units: Units) -> Result<(), Unread>
        ensures { Reads (λ _. stage self.new) result
            (told_after (stage self.old) (Told.Print units)) }
    {
        let is_due = self.is_in_threads();
        push(&mut self.printed, units, is_due)
    }

    // The next command ends.
    fn take_outcome(&mut self, alloc: Global, outcome: Outcome) -> Result<(), Unread>
        ensures { Reads (λ _. stage self.new) result
            (told_after (stage self.old) (Told.Outcome outcome)) }
    {
        let is_due = self.is_in_threads();
        let lines = Lines::of(mem::replace(&mut self.printed, Vec::new(alloc)));
        push(&mut self.commands, CommandEnd { lines, outcome }, is_due)
    }

    // A test of whether lines of a thread come next.
    fn is_in_threads(&self) -> bool
        ensures { result ≡ is_in_threads (stage self.now) }
    {
        matches!(self.part, Part::Threads)
    }

    fn take_journal(&mut self, alloc: Global, count: u32) -> Result<(), Unread>
        ensures { Reads (λ _. stage self.new) result
            (told_after (stage self.old) (Told.Journal count)) }
    {
        match self.part {
            Part::Start => {
                self.ends.clear();
                self.begin_journal(count);
                Ok(())
            }
            Part::Threads => self.close_threads(alloc, count),
            Part::Head | Part::Journal | Part::Whole => Err(Unread::Differs),
        }
    }

    // The journal begins behind the last thread.
    fn close_threads(&mut self, alloc: Global, count: u32) -> Result<(), Unread>
        ensures { Reads (λ _. stage self.new) result
            (thread_after self.old.ends.items self.old.commands.items self.old.printed.items
            (Told.Journal count)) }
    {
        if !self.printed.is_empty() {
            return Err(Unread::Differs);
        }
        let ended = self.end_thread(alloc);
        self.begin_journal(count);
        ended
    }

    fn begin_journal(&mut self, count: u32)
        ensures { stage self.new ≡ Stage.Journal self.old.ends.items count [] }
    {
        self.part = Part::Journal;
        self.count = count;
        self.entries.clear();
    }

    fn take_entry(&mut self, number: u32, entry: Entry) -> Result<(), Unread>
        ensures { Reads (λ _. stage self.new) result
            (told_after (stage self.old) (Told.Entry number entry)) }
    {
        let is_due = self.is_due(number);
        push(&mut self.entries, entry, is_due)
    }

    // A test of whether the entry of this number comes next.
    fn is_due(&self, number: u32) -> bool
        ensures { result ≡ is_due number (stage self.now) }
    {
        let count = self.entries.len();
        matches!(self.part, Part::Journal)
            && number as usize == count + 1
            && count < self.count as usize
    }

    fn take_end(&mut self) -> Result<(), Unread>
        ensures { Reads (λ _. stage self.new) result (told_after (stage self.old) Told.End) }
    {
        match self.part {
            Part::Journal => self.close(),
            Part::Head | Part::Start | Part::Threads | Part::Whole => Err(Unread::Differs),
        }
    }

    fn close(&mut self) -> Result<(), Unread>
        ensures { Reads (λ _. stage self.new) result
            (journal_after self.old.ends.items self.old.count self.old.entries.items Told.End) }
    {
        if self.entries.len() != self.count as usize {
            return Err(Unread::Differs);
        }
        self.part = Part::Whole;
        Ok(())
    }
}

// Adds the item where it is due; `Differs` where it is not.
fn push<T: Drop>(items: &mut Vec<T>, item: T, is_due: bool) -> Result<(), Unread>
    ensures { Reads (λ _. items.new.items) result
        (if is_due then Some (items.old.items ++ item ∷ []) else None) }
{
    if !is_due {
        return Err(Unread::Differs);
    }
    items.push(item)?;
    Ok(())
}
