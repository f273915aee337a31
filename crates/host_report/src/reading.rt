// Reports, read back line by line.
ghost use Rattle.std.specs.Prelude.{ℕ, ◌≡◌, ◌-◌, ◌^◌, ◌<◌, ◌++◌, List, [], length, codes};
ghost use Rattle.std.specs.Prelude.{IfOk, IfSome, IfNone, IsErrOf};
ghost use Rattle.std.specs.Str.{bytes_eq};
ghost use Rattle.host_report.specs.LineStages.{IsUnfinished, Spells, Stage, line_read, spelled};
ghost use Rattle.host_report.specs.LineStages.{stage, stage_after};
ghost use Rattle.host_report.specs.ReadBack.{IsReadBack, IsRefusedAt, IsUnbroken};
ghost use Rattle.host_report.specs.Reading.{Reads};

use crate::collected::Collected;
use crate::draft::{Draft, Part};
use crate::line::{Line, flush};
use crate::told::{Told, put_told, read_told};
use crate::unread::Unread;
use host_events::{End, Journal, Listed};
use std::alloc::Global;
use thiserror::Error;

/// What a report reads back as.
#[derive(Drop)]
pub struct ReadBack {
    /// How the commands of each thread ended.
    pub ends: Listed<End>,
    pub journal: Journal,
}

/// Why a text was not read back.
#[derive(Debug, Drop, Error)]
pub enum ReportFault {
    /// No report goes on with this line, counted from 1.
    #[error("no report at line {line}")]
    At { line: u32 },
    /// Memory was wanting.
    #[error("out of memory")]
    OutOfMemory,
}

// Where the one spelling of a line is put, to be compared.
#[derive(Drop)]
struct Printer {
    line: Line,
    sink: Collected,
}

/// The ends and the journal of which the text is the report.
///
/// `At` tells the first line, counted from 1, with which no report goes on: of a text that stops
/// before its end, the line that is due. A last piece without LF is a line.
pub fn read_report(alloc: Global, bytes: &[u8]) -> Result<ReadBack, ReportFault>
    requires { length bytes.now < 2 ^ 32 - 1 }
    ensures read { IfOk result (λ read. IsReadBack bytes.now (read.ends, read.journal)) }
    ensures refused { (line : ℕ) → IsErrOf result (ReportFault.At line) → IsRefusedAt bytes.now line }
{
    let Ok(mut printer) = new_printer(alloc) else {
        return Err(ReportFault::OutOfMemory);
    };
    let mut draft = Draft::new(alloc);
    let mut rest = bytes;
    let mut line = 1;
    while let Some((own, after)) = next_line(rest) {
        match take_line(alloc, &mut printer, &mut draft, own) {
            Ok(()) => {}
            Err(Unread::Differs) => return Err(ReportFault::At { line }),
            Err(Unread::OutOfMemory) => return Err(ReportFault::OutOfMemory),
        }
        rest = after;
        line += 1;
    }
    whole(draft, rest).ok_or(ReportFault::At { line })
}

fn new_printer(alloc: Global) -> Result<Printer, Unread> {
    Ok(Printer {
        line: Line::new(alloc)?,
        sink: Collected {
            bytes: Vec::new(alloc),
            faults: 0,
        },
    })
}

// The first line without its LF, and what stands behind that.
fn next_line(rest: &[u8]) -> Option<(&[u8], &[u8])>
    ensures parted { IfSome result (λ x. rest.now ≡ x.0.now ++ codes "\n" ++ x.1.now) }
    ensures unbroken { IfSome result (λ x. IsUnbroken x.0.now) }
    ensures last { IfNone result (IsUnbroken rest.now) }
{
    let at = rest.iter().position(|byte| *byte == b'\n')?;
    Some((&rest[..at], &rest[at + 1..]))
}

// Takes the next line.
fn take_line(
    alloc: Global,
    printer: &mut Printer,
    draft: &mut Draft,
    line: &[u8],
) -> Result<(), Unread>
    ensures { Reads (λ _. stage draft.new) result (stage_after (stage draft.old) line.now) }
{
    if let Part::Head = draft.part {
        return take_head(draft, line);
    }
    let told = read_line(alloc, printer, line)?;
    draft.take(alloc, told)
}

// Takes the first line.
fn take_head(draft: &mut Draft, line: &[u8]) -> Result<(), Unread>
    ensures { Reads (λ _. stage draft.new) result (stage_after Stage.Head line.now) }
{
    if line != b"alc 1".as_slice() {
        return Err(Unread::Differs);
    }
    draft.part = Part::Start;
    Ok(())
}

// What a line tells, which has to be spelled just so.
fn read_line(alloc: Global, printer: &mut Printer, line: &[u8]) -> Result<Told, Unread>
    ensures { Reads (λ told. told) result (line_read line.now) }
{
    let told = read_told(alloc, line);
    check_spelling(printer, &told, line).and(told)
}

// `Differs` where something was read that is not spelled as the line.
fn check_spelling(
    printer: &mut Printer,
    told: &Result<Told, Unread>,
    line: &[u8],
) -> Result<(), Unread>
    ensures { Spells line.now told.now result }
{
    match told {
        Ok(told) => spell(printer, told, line),
        Err(_) => Ok(()),
    }
}

// `Differs` where this is not spelled as the line.
fn spell(printer: &mut Printer, told: &Told, line: &[u8]) -> Result<(), Unread>
    ensures { Reads (λ _. told.now) result (spelled line.now told.now) }
{
    printer.line.clear();
    printer.sink.bytes.clear();
    put_told(&mut printer.line, &mut printer.sink, told);
    flush(&mut printer.line, &mut printer.sink);
    if printer.line.has_failed() {
        return Err(Unread::OutOfMemory);
    }
    if !is_line(printer.sink.bytes.as_slice(), line) {
        return Err(Unread::Differs);
    }
    Ok(())
}

// A test of whether the text of a line is this with an LF after it.
fn is_line(text: &[u8], line: &[u8]) -> bool
    ensures { (front : List ℕ) → text.now ≡ front ++ codes "\n" → result ≡ bytes_eq front line.now }
{
    let front = &text[..text.len().saturating_sub(1)];
    front == line
}

// All that was read, where it is a whole report.
fn whole(draft: Draft, rest: &[u8]) -> Option<ReadBack>
    ensures some { IfSome result (λ read. stage draft ≡ Stage.Whole read.ends read.journal) }
    ensures all { IfSome result (λ read. rest.now ≡ []) }
    ensures none { IfNone result (IsUnfinished (stage draft) rest.now) }
{
    let Part::Whole = draft.part else {
        return None;
    };
    if !rest.is_empty() {
        return None;
    }
    let Draft { ends, entries, .. } = draft;
    Some(ReadBack {
        ends: Listed::of(ends),
        journal: Listed::of(entries),
    })
}
