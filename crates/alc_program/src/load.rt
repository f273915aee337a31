ghost use Rattle.std.specs.Prelude.{◌≡◌, ◌≤◌, List, [], ℕ, IfOk, IfErr, length};
ghost use Rattle.host_script.specs.Script.{Accepts};
ghost use Rattle.alc_program.specs.Headline.{During, IsAnswerToSteps, WritesNothing, during};
ghost use Rattle.alc_program.specs.Load.{HoldsScript, IsBytesStatus, script_limit};
ghost use Rattle.alc_program.specs.Unbuilt.{IsLeast, unbuilt_lines};

use crate::status::Status;
use crate::unbuilt::first_unbuilt;
use host_script::{LineCause, MAX_SCRIPT, Script, ScriptFault, read_script};
use plug_io::{Files, Found};
use std::alloc::Global;

/// The script that the file holds, or the status that tells why there is none.
pub fn load<F: Files>(alloc: Global, files: &mut F, file: &str) -> Result<Script, Status>
    ensures script { IfOk result (λ script. HoldsScript (F.held files.old) file.now script) }
    ensures status { IfErr result (λ status. (schedule : List ℕ) (out : During (List ℕ)) →
        WritesNothing out → IsAnswerToSteps file.now schedule
        (during F.held F.faults files.old files.new) out status) }
    ensures held { F.held files.new ≡ F.held files.old }
    ensures faults { F.faults files.old ≤ F.faults files.new }
{
    match files.read(alloc, file, MAX_SCRIPT as usize) {
        Found::Bytes(bytes) => load_bytes(alloc, &bytes),
        Found::Absent => Err(refusal(LineCause::Absent)),
        Found::TooLong => Err(refusal(LineCause::TooLong)),
        Found::Failed => Err(Status::ReadFault),
        Found::OutOfMemory => Err(Status::OutOfMemory),
    }
}

/// The script that the bytes spell, if all its lines are run.
fn load_bytes(alloc: Global, bytes: &[u8]) -> Result<Script, Status>
    requires { length bytes.now ≤ script_limit }
    ensures script { IfOk result (λ script.
        Accepts bytes.now script × (unbuilt_lines script ≡ [])) }
    ensures status { IfErr result (IsBytesStatus bytes.now) }
{
    match read_script(alloc, bytes) {
        Ok(script) => all_built(script),
        Err(ScriptFault::At { line, cause }) => Err(Status::Script { line, cause }),
        Err(ScriptFault::OutOfMemory) => Err(Status::OutOfMemory),
    }
}

/// The script, if all its lines are run.
fn all_built(script: Script) -> Result<Script, Status>
    ensures script { IfOk result (λ same. (same ≡ script) × (unbuilt_lines script ≡ [])) }
    ensures status { IfErr result (λ status. (line : ℕ) × IsLeast (unbuilt_lines script) line
        × (status ≡ Status.Script line LineCause.NotBuilt)) }
{
    match first_unbuilt(&script) {
        None => Ok(script),
        Some(line) => Err(Status::Script {
            line,
            cause: LineCause::NotBuilt,
        }),
    }
}

/// The status of a file that is refused as a whole.
fn refusal(cause: LineCause) -> Status
    ensures { result ≡ Status.Script 0 cause }
{
    Status::Script { line: 0, cause }
}
