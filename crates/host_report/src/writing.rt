// The report of a run: how each command of each thread ended, and the journal.
ghost use Rattle.std.specs.Prelude.{◌≡◌, ℕ, ◌+◌, ◌≤◌, List, [], ◌∷◌, ◌++◌, length, codes, decimal};
ghost use Rattle.std.specs.Prelude.{OnOk, OnErr};
ghost use Rattle.std.specs.List.{flat_map};
ghost use Rattle.plug_io.specs.Faults.{HasRisen};
ghost use Rattle.plug_io.specs.Sink.{HasAppended};
ghost use Rattle.host_report.specs.Fields.{Field, line_text};
ghost use Rattle.host_report.specs.Line.{HasStopped, Puts};
ghost use Rattle.host_report.specs.Report.{command_text, counted_texts, entry_text};
ghost use Rattle.host_report.specs.Report.{print_fields, report_text, thread_text};
ghost use Rattle.host_report.specs.Table.{outcome_fields};

use crate::event::put_event;
use crate::field::{put_decimal, put_string};
use crate::line::{Line, flush, put, put_number};
use crate::outcome::put_outcome;
use crate::reply::put_reply;
use cli_words::Units;
use host_events::{CommandEnd, End, Entry, Journal, Outcome};
use plug_io::{Failed, Sink};

/// Writes the report of a run: how the commands of each thread ended, the threads in their order,
/// and the journal.
///
/// `Failed` comes only where the sink counted a fault in this call. Of the text it has then taken a
/// proper prefix.
pub fn report<S: Sink>(
    line: &mut Line,
    ends: &[End],
    journal: &Journal,
    out: &mut S,
) -> Result<(), Failed>
    ensures written { let text = report_text ends.now journal.now in
        OnOk result (HasAppended (S.written out.old) (S.written out.new) text) }
    ensures stopped { let text = report_text ends.now journal.now in
        OnErr result (HasStopped (S.written out.old) (S.written out.new) text) }
    ensures failed { OnErr result (HasRisen (S.faults out.old) (S.faults out.new)) }
    ensures faults { S.faults out.old ≤ S.faults out.new }
{
    line.clear();
    put_report(line, out, ends, journal.items());
    flush(line, out);
    if line.has_failed() {
        Err(Failed)
    } else {
        Ok(())
    }
}

fn put_report<S: Sink>(line: &mut Line, out: &mut S, ends: &[End], entries: &[Entry])
    ensures { Puts S.written S.faults line.old out.old line.new out.new
        (report_text ends.now entries.now) }
{
    put(line, out, b"alc 1\n");
    put_threads(line, out, ends);
    put_count_line(line, out, b"journal", entries.len() as u64);
    put_entries(line, out, entries);
    put(line, out, b"end\n");
}

fn put_threads<S: Sink>(line: &mut Line, out: &mut S, ends: &[End])
    ensures { Puts S.written S.faults line.old out.old line.new out.new
        (counted_texts thread_text 1 ends.now) }
{
    for (i, end) in ends.iter().enumerate() {
        put_thread(line, out, i as u64 + 1, end.items());
    }
}

fn put_thread<S: Sink>(line: &mut Line, out: &mut S, thread: u64, commands: &[CommandEnd])
    ensures { Puts S.written S.faults line.old out.old line.new out.new
        (thread_text thread commands.now) }
{
    put_count_line(line, out, b"thread", thread);
    put_commands(line, out, commands);
}

/// Puts a line of a word and a number.
pub(crate) fn put_count_line<S: Sink>(line: &mut Line, out: &mut S, word: &[u8], count: u64)
    ensures { Puts S.written S.faults line.old out.old line.new out.new
        (line_text (Field.Word word.now ∷ Field.Number count ∷ [])) }
{
    put(line, out, word);
    put(line, out, b" ");
    put_number(line, out, count);
    put(line, out, b"\n");
}

fn put_commands<S: Sink>(line: &mut Line, out: &mut S, commands: &[CommandEnd])
    ensures { Puts S.written S.faults line.old out.old line.new out.new
        (flat_map command_text commands.now) }
{
    for command in commands {
        put_command(line, out, command);
    }
}

fn put_command<S: Sink>(line: &mut Line, out: &mut S, end: &CommandEnd)
    ensures { Puts S.written S.faults line.old out.old line.new out.new (command_text end.now) }
{
    put_lines(line, out, end.lines.items());
    put_outcome_line(line, out, &end.outcome);
}

pub(crate) fn put_outcome_line<S: Sink>(line: &mut Line, out: &mut S, outcome: &Outcome)
    ensures { Puts S.written S.faults line.old out.old line.new out.new
        (line_text (outcome_fields outcome.now)) }
{
    put_outcome(line, out, outcome);
    put(line, out, b"\n");
}

fn put_lines<S: Sink>(line: &mut Line, out: &mut S, lines: &[Units])
    ensures { Puts S.written S.faults line.old out.old line.new out.new
        (flat_map (λ units. line_text (print_fields units)) lines.now) }
{
    for printed in lines {
        put_printed(line, out, printed);
    }
}

pub(crate) fn put_printed<S: Sink>(line: &mut Line, out: &mut S, printed: &Units)
    ensures { Puts S.written S.faults line.old out.old line.new out.new
        (line_text (print_fields printed.now)) }
{
    put(line, out, b"print");
    put_string(line, out, printed.units());
    put(line, out, b"\n");
}

fn put_entries<S: Sink>(line: &mut Line, out: &mut S, entries: &[Entry])
    ensures { Puts S.written S.faults line.old out.old line.new out.new
        (counted_texts entry_text 1 entries.now) }
{
    for (i, entry) in entries.iter().enumerate() {
        put_entry(line, out, i as u64 + 1, entry);
    }
}

pub(crate) fn put_entry<S: Sink>(line: &mut Line, out: &mut S, number: u64, entry: &Entry)
    ensures { Puts S.written S.faults line.old out.old line.new out.new
        (entry_text number entry.now) }
{
    put_number(line, out, number);
    put_decimal(line, out, entry.thread);
    put_event(line, out, &entry.event);
    put(line, out, b" -> ");
    put_reply(line, out, &entry.reply);
    put(line, out, b"\n");
}
