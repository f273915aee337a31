//! The top call.
ghost use Rattle.std.specs.Prelude.{◌≡◌, ℕ, ◌≤◌, List, [], length, map, IfErr, IfOk, string_bytes};
ghost use Rattle.std.specs.Arc.{arc_value};
ghost use Rattle.std.specs.List.{AllByRecursion};
ghost use Rattle.host_script.specs.Laws.{IsSmall};
ghost use Rattle.host_script.specs.Worded.{AreWorded};
ghost use Rattle.host_threads.specs.Turns.{IsSchedule};
ghost use Rattle.alc_program.specs.Good.{RunsScript};
ghost use Rattle.alc_program.specs.Headline.{During, IsAnswerToSteps, IsAnswerToWords};
ghost use Rattle.alc_program.specs.Headline.{WritesNothing, during};
ghost use Rattle.alc_program.specs.Images.{AreRead};
ghost use Rattle.alc_program.specs.Load.{HoldsScript};
ghost use Rattle.alc_program.specs.Unbuilt.{unbuilt_lines};

use crate::images::read_images;
use crate::inspect::inspect;
use crate::load::load;
use crate::run::{Run, run_script};
use crate::status::Status;
use crate::words::{Verb, verb_of};
use bind_flow::Images;
use host_report::{Line, report};
use host_script::Script;
use plug_io::{Files, Gate, Sink};
use std::alloc::{AllocError, Global};
use std::sync::{Arc, Wait};
use std::thread::Threads;

/// Does what the words ask for.
///
/// `steps F N` runs the script that the file F holds on one thread of the system, the script's
/// threads in the turns of the schedule N (1 to 64 digits), and writes its report. The files of its
/// images are read first, each once, in the order of their lines. `inspect F` reads the file F as
/// an image of an assembly and writes its inspection: what the image names, or why there is none,
/// as where the file is absent or longer than 4,194,304 bytes. No other words are known, and there
/// are no options.
///
/// What each answer means is `IsAnswerToWords`: the report or the inspection that was written, or
/// why there is none.
pub fn alc<R: Threads + Wait + Sync, F: Files, S: Sink, G: Gate + Sync>(
    _rt: &R,
    alloc: Global,
    words: &[String],
    files: &mut F,
    out: &mut S,
    _gate: &G,
) -> Status
    ensures headline { IsAnswerToWords (map string_bytes words.now)
        (during F.held F.faults files.old files.new)
        (during S.written S.faults out.old out.new) result }

    // What stays, whatever the answer is.
    ensures held { F.held files.new ≡ F.held files.old }
    ensures read_faults { F.faults files.old ≤ F.faults files.new }
    ensures write_faults { S.faults out.old ≤ S.faults out.new }
{
    alc_alone(alloc, words, files, out)
}

/// Does what the words ask for, as `alc` does, on the caller's thread alone. It waits for nobody,
/// and returns.
pub fn alc_alone<F: Files, S: Sink>(
    alloc: Global,
    words: &[String],
    files: &mut F,
    out: &mut S,
) -> Status
    ensures headline { IsAnswerToWords (map string_bytes words.now)
        (during F.held F.faults files.old files.new)
        (during S.written S.faults out.old out.new) result }

    // What stays, whatever the answer is.
    ensures held { F.held files.new ≡ F.held files.old }
    ensures read_faults { F.faults files.old ≤ F.faults files.new }
    ensures write_faults { S.faults out.old ≤ S.faults out.new }
{
    match verb_of(words) {
        Some(Verb::Steps { file, schedule }) => steps(alloc, file, schedule, files, out),
        Some(Verb::Inspect { file }) => inspect(alloc, file, files, out),
        None => Status::Usage,
    }
}

/// Runs the script that the file holds over its images, in the turns of the schedule, and writes its
/// report.
fn steps<F: Files, S: Sink>(
    alloc: Global,
    file: &str,
    schedule: &[u8],
    files: &mut F,
    out: &mut S,
) -> Status
    requires { IsSchedule schedule.now }
    ensures answer { IsAnswerToSteps file.now schedule.now
        (during F.held F.faults files.old files.new)
        (during S.written S.faults out.old out.new) result }
    ensures held { F.held files.new ≡ F.held files.old }
    ensures read_faults { F.faults files.old ≤ F.faults files.new }
    ensures write_faults { S.faults out.old ≤ S.faults out.new }
{
    match load_all(alloc, files, file) {
        Ok(loaded) => run_and_report(alloc, loaded, schedule, out),
        Err(status) => status,
    }
}

/// A script, and how the files of its images read.
#[derive(Drop)]
struct Loaded {
    script: Script,
    images: Arc<Images>,
}

/// The script that the file holds, with its images, or the status that tells why they are not there.
fn load_all<F: Files>(alloc: Global, files: &mut F, file: &str) -> Result<Loaded, Status>
    ensures script { IfOk result (λ loaded.
        HoldsScript (F.held files.old) file.now loaded.script) }
    ensures images { IfOk result (λ loaded.
        AreRead (F.held files.old) loaded.script.images (arc_value loaded.images)) }
    ensures status { IfErr result (λ status. (schedule : List ℕ) (out : During (List ℕ)) →
        WritesNothing out → IsAnswerToSteps file.now schedule
        (during F.held F.faults files.old files.new) out status) }
    ensures held { F.held files.new ≡ F.held files.old }
    ensures faults { F.faults files.old ≤ F.faults files.new }
{
    let script = load(alloc, files, file)?;
    let images = read_images(alloc, files, &script.images)?;
    Ok(Loaded { script, images })
}

/// Runs a script over its images, in the turns of the schedule, and writes its report.
fn run_and_report<S: Sink>(alloc: Global, loaded: Loaded, schedule: &[u8], out: &mut S) -> Status
    requires small { IsSmall loaded.script }
    requires built { unbuilt_lines loaded.script ≡ [] }
    requires worded { AllByRecursion (AreWorded (length loaded.script.images))
        loaded.script.threads }
    requires images { length (arc_value loaded.images) ≡ length loaded.script.images }
    requires schedule { IsSchedule schedule.now }
    ensures answer { (file : List ℕ) (files : During (List (List ℕ × List ℕ))) →
        HoldsScript files.before file loaded.script →
        AreRead files.before loaded.script.images (arc_value loaded.images) →
        IsAnswerToSteps file schedule.now files
        (during S.written S.faults out.old out.new) result }
    ensures faults { S.faults out.old ≤ S.faults out.new }
{
    match ready(alloc, loaded, schedule) {
        Ok((mut line, run)) => match report(&mut line, &run.ends, &run.journal, out) {
            Ok(()) => Status::Done,
            Err(_) => Status::WriteFault,
        },
        Err(_) => Status::OutOfMemory,
    }
}

/// Takes the buffer of the report, and runs the script: all that may still lack memory.
fn ready(alloc: Global, loaded: Loaded, schedule: &[u8]) -> Result<(Line, Run), AllocError>
    requires small { IsSmall loaded.script }
    requires built { unbuilt_lines loaded.script ≡ [] }
    requires worded { AllByRecursion (AreWorded (length loaded.script.images))
        loaded.script.threads }
    requires images { length (arc_value loaded.images) ≡ length loaded.script.images }
    requires schedule { IsSchedule schedule.now }
    ensures { IfOk result (λ ready. RunsScript loaded.script (arc_value loaded.images)
        schedule.now ready.1.journal ready.1.ends.items) }
{
    let line = Line::new(alloc)?;
    let run = run_script(alloc, loaded.script, &loaded.images, schedule)?;
    Ok((line, run))
}
