// What one line of a report tells.
ghost use Rattle.std.specs.Prelude.{option_map};
ghost use Rattle.host_report.specs.Fields.{line_text};
ghost use Rattle.host_report.specs.Line.{Puts};
ghost use Rattle.host_report.specs.LineReading.{answered_read, entry_read, told_read, worded_line};
ghost use Rattle.host_report.specs.OutcomeReading.{outcome_read};
ghost use Rattle.host_report.specs.Reading.{Reads};
ghost use Rattle.host_report.specs.Told.{told_fields};

use crate::event_reading::event;
use crate::line::{Line, put};
use crate::outcome_reading::outcome;
use crate::reply_reading::{keyword, reply};
use crate::text_reading::text;
use crate::unread::{Unread, beside};
use crate::words::{number, word};
use crate::writing::{put_count_line, put_entry, put_outcome_line, put_printed};
use cli_words::Units;
use host_events::{Entry, Event, Outcome};
use plug_io::Sink;
use std::alloc::Global;

/// A line of a report after the first.
#[derive(Drop)]
pub(crate) enum Told {
    /// A thread of this number begins.
    Thread(u32),
    /// A command printed this.
    Print(Units),
    /// A command ended so.
    Outcome(Outcome),
    /// The journal has so many entries.
    Journal(u32),
    /// The entry of this number.
    Entry(u32, Entry),
    /// The report ends.
    End,
}

/// Puts a line.
pub(crate) fn put_told<S: Sink>(line: &mut Line, out: &mut S, told: &Told)
    ensures { Puts S.written S.faults line.old out.old line.new out.new
        (line_text (told_fields told.now)) }
{
    match told {
        Told::Thread(thread) => put_count_line(line, out, b"thread", *thread as u64),
        Told::Print(printed) => put_printed(line, out, printed),
        Told::Outcome(outcome) => put_outcome_line(line, out, outcome),
        Told::Journal(count) => put_count_line(line, out, b"journal", *count as u64),
        Told::Entry(number, entry) => put_entry(line, out, *number as u64, entry),
        Told::End => put(line, out, b"end\n"),
    }
}

/// What a line without its LF tells, where it is one of a report. It may be spelled otherwise.
#[tactic(auto, unfolding(crate::specs::LineReading::told_read))]
pub(crate) fn read_told(alloc: Global, line: &[u8]) -> Result<Told, Unread>
    ensures { Reads (λ told. told) result (told_read line.now) }
{
    match number(line) {
        Ok((count, rest)) => entry(alloc, count, rest),
        Err(Unread::Differs) => worded(alloc, line),
        Err(Unread::OutOfMemory) => Err(Unread::OutOfMemory),
    }
}

// What a line tells that begins with no number.
fn worded(alloc: Global, line: &[u8]) -> Result<Told, Unread>
    ensures { Reads (λ told. told) result (worded_line line.now) }
{
    let (name, rest) = keyword(line)?;
    match name {
        "thread" => Ok(Told::Thread(number(rest)?.0)),
        "print" => Ok(Told::Print(text(alloc, rest)?.0)),
        "journal" => Ok(Told::Journal(number(rest)?.0)),
        "end" => Ok(Told::End),
        _ => ended(alloc, line),
    }
}

fn ended(alloc: Global, line: &[u8]) -> Result<Told, Unread>
    ensures { Reads (λ told. told) result (option_map Told.Outcome (outcome_read line.now)) }
{
    let outcome = outcome(alloc, line)?;
    Ok(Told::Outcome(outcome))
}

fn entry(alloc: Global, count: u32, rest: &[u8]) -> Result<Told, Unread>
    ensures { Reads (λ told. told) result (entry_read count rest.now) }
{
    let (thread, rest) = number(rest)?;
    let (event, rest) = event(alloc, rest)?;
    answered(alloc, count, thread, event, rest)
}

// The entry of which all but the reply was read.
fn answered(
    alloc: Global,
    count: u32,
    thread: u32,
    event: Event,
    rest: &[u8],
) -> Result<Told, Unread>
    ensures { Reads (λ told. told) result (answered_read count thread event rest.now) }
{
    let (_, rest) = word(rest);
    match beside(event, reply(alloc, rest)) {
        Ok((event, reply)) => {
            let entry = Entry {
                thread,
                event,
                reply,
            };
            Ok(Told::Entry(count, entry))
        }
        Err(unread) => Err(unread),
    }
}
