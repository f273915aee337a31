//! Scripts.
ghost use Rattle.std.specs.Prelude.{ℕ, ◌≡◌, ◌-◌, ◌^◌, ◌<◌, IfOk, IfErr, MatchResult, length};
ghost use Rattle.host_script.specs.declared.script.Script.{Script};
ghost use Rattle.host_script.specs.declared.cause.LineCause.{LineCause};
ghost use Rattle.host_script.specs.Script.{Accepts, Refuses, IsRefusal, IsAtOrMemory, fault_at};
ghost use Rattle.host_script.specs.State.{IsAnswer};

use crate::cause::{LineCause, LineFault, ScriptFault};
use crate::command::CommandLine;
use crate::images::ImageLines;
use crate::line::first_line;
use crate::reading::Reading;
use cli_words::Listed;
use std::alloc::Global;

/// The line of an application.
#[derive(Drop)]
pub struct AppLine {
    /// The line, counted from 1.
    pub line: u32,
    /// The number of the image, from 1.
    pub image: u32,
}

/// What a script says.
#[derive(Drop)]
pub struct Script {
    /// The images, which the order of their lines numbers from 1.
    pub images: ImageLines,
    /// The images that are applications, in the order of their lines.
    pub app: Listed<AppLine>,
    /// What each thread does, the first thread first.
    pub threads: Listed<Listed<CommandLine>>,
}

/// The script that the bytes spell. `At` comes exactly where they are refused, with the line and
/// the cause, unless memory is wanting.
pub fn read_script(alloc: Global, bytes: &[u8]) -> Result<Script, ScriptFault>
    requires { length bytes.now < 2 ^ 32 - 1 }
    ensures accepted { IfOk result (Accepts bytes.now) }
    ensures at { IfErr result (IsRefusal bytes.now) }

    // Bytes mean one script at most, and this is it.
    ensures exact { (script : Script) → Accepts bytes.now script →
        MatchResult result (λ found. found ≡ script) (λ fault. fault ≡ ScriptFault.OutOfMemory) }

    // Bytes are refused at one line for one cause, and these are they.
    ensures refused { (line : ℕ) (cause : LineCause) → Refuses bytes.now line cause →
        MatchResult result (λ _. ⊥) (IsAtOrMemory line cause) }
{
    read(alloc, bytes)
}

fn read(alloc: Global, bytes: &[u8]) -> Result<Script, ScriptFault>
    requires { length bytes.now < 2 ^ 32 - 1 }
    ensures { IsAnswer bytes.now result }
{
    let mut reading = Reading::new(alloc);
    let mut number: u32 = 0;
    let mut rest = bytes;
    while !rest.is_empty() {
        let (line, after) = first_line(rest);
        number += 1;
        if let Err(fault) = reading.take_line(alloc, number, line) {
            return Err(fault_at(number, fault));
        }
        rest = after;
    }
    match reading.script() {
        Ok(Some(script)) => Ok(script),
        Ok(None) => Err(ScriptFault::At {
            line: number + 1,
            cause: LineCause::NoThread,
        }),
        Err(_) => Err(ScriptFault::OutOfMemory),
    }
}

fn fault_at(line: u32, fault: LineFault) -> ScriptFault
    ensures { result ≡ fault_at line fault }
{
    match fault {
        LineFault::Cause(cause) => ScriptFault::At { line, cause },
        LineFault::OutOfMemory => ScriptFault::OutOfMemory,
    }
}
