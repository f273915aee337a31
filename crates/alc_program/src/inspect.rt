//! The inspection of a file: it is read as an image, and what it holds is written.
ghost use Rattle.std.specs.Prelude.{◌≤◌, ◌≡◌, ℕ, List};
ghost use Rattle.bind_flow.specs.Readings.{meaning};
ghost use Rattle.alc_program.specs.Headline.{During, IsAnswerToInspect, during};
ghost use Rattle.alc_program.specs.Inspect.{ReadsAs};

use crate::images::read_file;
use crate::inspection::write_inspection;
use crate::status::Status;
use bind_flow::ImageReading;
use host_report::Line;
use plug_io::{Files, Sink};
use std::alloc::Global;

/// Writes the inspection of the file.
pub fn inspect<F: Files, S: Sink>(alloc: Global, file: &str, files: &mut F, out: &mut S) -> Status
    ensures answer { IsAnswerToInspect file.now (during F.held F.faults files.old files.new)
        (during S.written S.faults out.old out.new) result }
    ensures held { F.held files.new ≡ F.held files.old }
    ensures read_faults { F.faults files.old ≤ F.faults files.new }
    ensures write_faults { S.faults out.old ≤ S.faults out.new }
{
    let Ok(mut line) = Line::new(alloc) else {
        return Status::OutOfMemory;
    };
    match read_file(alloc, files, file) {
        Ok(reading) => written(&mut line, &reading, out),
        Err(status) => status,
    }
}

/// Writes the inspection of what was read.
fn written<S: Sink>(line: &mut Line, reading: &ImageReading, out: &mut S) -> Status
    ensures answer { (file : List ℕ) (files : During (List (List ℕ × List ℕ))) →
        ReadsAs files.before file (meaning reading.now) → IsAnswerToInspect file files
        (during S.written S.faults out.old out.new) result }
    ensures faults { S.faults out.old ≤ S.faults out.new }
{
    match write_inspection(line, reading, out) {
        Ok(()) => Status::Done,
        Err(_) => Status::WriteFault,
    }
}
