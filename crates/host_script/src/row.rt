//! Commands as lines spell them.
ghost use Rattle.std.specs.Prelude.{◌≡◌, ◌+◌, ◌≤◌, drop};
ghost use Rattle.host_script.specs.Words.{texts};
ghost use Rattle.host_script.specs.Images.{names};
ghost use Rattle.host_script.specs.Outcome.{Gives};
ghost use Rattle.host_script.specs.Row.{command_row, answer_row, new_row, fixed_row, on_row};
ghost use Rattle.host_script.specs.Row.{resolving_row, resolve_row, load_row, bind_row, call_row};
ghost use Rattle.host_script.specs.Row.{hold_row, invoke_row, drop_row, weak_row, alive_row};
ghost use Rattle.host_script.specs.Row.{unload_row, argument_list};

use crate::cause::LineFault;
use crate::command::{Argument, Command, ScriptAnswer};
use crate::form::{AnswerForm, CommandForm};
use crate::images::ImageLines;
use crate::word::{argument, fixed, name, simple_name, units, used_image, version};
use crate::words::word;
use cli_words::Listed;
use std::alloc::Global;

/// The command that the words spell in this form.
pub fn command(
    alloc: Global,
    images: &ImageLines,
    form: CommandForm,
    words: &[&[u8]],
) -> Result<Command, LineFault>
    ensures { Gives result (command_row (names images.now) form (texts words.now)) }
{
    match form {
        CommandForm::New => new_context(alloc, words),
        CommandForm::NewFixed => new_fixed(alloc, words),
        CommandForm::On(answer) => on(alloc, images, answer, words),
        CommandForm::Resolving(answer) => resolving(alloc, images, answer, words),
        CommandForm::Resolve(answer) => resolve(alloc, images, answer, words),
        CommandForm::Load => load(alloc, images, words),
        CommandForm::Bind => bind(alloc, words),
        CommandForm::Call => call(alloc, words),
        CommandForm::Hold => hold(alloc, words),
        CommandForm::Invoke => invoke(alloc, words),
        CommandForm::DropHandle => drop_handle(alloc, words),
        CommandForm::Weak => weak(alloc, words),
        CommandForm::Alive => alive(alloc, words),
        CommandForm::Unload => unload(alloc, words),
        CommandForm::Collect => Ok(Command::Collect),
    }
}

fn new_context(alloc: Global, words: &[&[u8]]) -> Result<Command, LineFault>
    ensures { Gives result (new_row (texts words.now)) }
{
    let context = name(alloc, word(words, 1))?;
    Ok(Command::New {
        context,
        fixed: false,
    })
}

fn new_fixed(alloc: Global, words: &[&[u8]]) -> Result<Command, LineFault>
    ensures { Gives result (fixed_row (texts words.now)) }
{
    let context = name(alloc, word(words, 1))?;
    fixed(word(words, 2), b"fixed")?;
    Ok(Command::New {
        context,
        fixed: true,
    })
}

fn on(
    alloc: Global,
    images: &ImageLines,
    answer: AnswerForm,
    words: &[&[u8]],
) -> Result<Command, LineFault>
    ensures { Gives result (on_row (names images.now) answer (texts words.now)) }
{
    let context = name(alloc, word(words, 1))?;
    let name = simple_name(alloc, word(words, 2))?;
    let answer = answer_of(alloc, images, answer, words, 3)?;
    Ok(Command::On {
        context,
        name,
        answer,
    })
}

fn resolving(
    alloc: Global,
    images: &ImageLines,
    answer: AnswerForm,
    words: &[&[u8]],
) -> Result<Command, LineFault>
    ensures { Gives result (resolving_row (names images.now) answer (texts words.now)) }
{
    let context = name(alloc, word(words, 1))?;
    let name = simple_name(alloc, word(words, 2))?;
    let answer = answer_of(alloc, images, answer, words, 3)?;
    Ok(Command::Resolving {
        context,
        name,
        answer,
    })
}

fn resolve(
    alloc: Global,
    images: &ImageLines,
    answer: AnswerForm,
    words: &[&[u8]],
) -> Result<Command, LineFault>
    ensures { Gives result (resolve_row (names images.now) answer (texts words.now)) }
{
    let name = simple_name(alloc, word(words, 1))?;
    let answer = answer_of(alloc, images, answer, words, 2)?;
    Ok(Command::Resolve { name, answer })
}

/// The answer whose words begin at place `at`.
fn answer_of(
    alloc: Global,
    images: &ImageLines,
    answer: AnswerForm,
    words: &[&[u8]],
    at: usize,
) -> Result<ScriptAnswer, LineFault>
    requires { at ≤ 3 }
    ensures { Gives result (answer_row (names images.now) answer (texts words.now) at) }
{
    match answer {
        AnswerForm::Image => {
            fixed(word(words, at), b"image")?;
            let image = used_image(alloc, images, word(words, at + 1))?;
            Ok(ScriptAnswer::Image(image))
        }
        AnswerForm::Share => {
            fixed(word(words, at), b"share")?;
            let context = name(alloc, word(words, at + 1))?;
            Ok(ScriptAnswer::Share(context))
        }
        AnswerForm::Nothing => {
            fixed(word(words, at), b"none")?;
            Ok(ScriptAnswer::Nothing)
        }
    }
}

fn load(alloc: Global, images: &ImageLines, words: &[&[u8]]) -> Result<Command, LineFault>
    ensures { Gives result (load_row (names images.now) (texts words.now)) }
{
    let context = name(alloc, word(words, 1))?;
    let image = used_image(alloc, images, word(words, 2))?;
    Ok(Command::Load { context, image })
}

fn bind(alloc: Global, words: &[&[u8]]) -> Result<Command, LineFault>
    ensures { Gives result (bind_row (texts words.now)) }
{
    let context = name(alloc, word(words, 1))?;
    let name = simple_name(alloc, word(words, 2))?;
    let version = version(word(words, 3))?;
    Ok(Command::Bind {
        context,
        name,
        version,
    })
}

fn call(alloc: Global, words: &[&[u8]]) -> Result<Command, LineFault>
    ensures { Gives result (call_row (texts words.now)) }
{
    let context = name(alloc, word(words, 1))?;
    let name = simple_name(alloc, word(words, 2))?;
    let type_name = units(alloc, word(words, 3))?;
    let method = units(alloc, word(words, 4))?;
    let args = arguments(alloc, words, 5)?;
    Ok(Command::Call {
        context,
        name,
        type_name,
        method,
        args,
    })
}

fn hold(alloc: Global, words: &[&[u8]]) -> Result<Command, LineFault>
    ensures { Gives result (hold_row (texts words.now)) }
{
    let handle = name(alloc, word(words, 1))?;
    let context = name(alloc, word(words, 2))?;
    let name = simple_name(alloc, word(words, 3))?;
    let type_name = units(alloc, word(words, 4))?;
    let method = units(alloc, word(words, 5))?;
    Ok(Command::Hold {
        handle,
        context,
        name,
        type_name,
        method,
    })
}

fn invoke(alloc: Global, words: &[&[u8]]) -> Result<Command, LineFault>
    ensures { Gives result (invoke_row (texts words.now)) }
{
    let handle = name(alloc, word(words, 1))?;
    let args = arguments(alloc, words, 2)?;
    Ok(Command::Invoke { handle, args })
}

/// The arguments that the words from place `from` on are.
fn arguments(alloc: Global, words: &[&[u8]], from: usize) -> Result<Listed<Argument>, LineFault>
    ensures { Gives result (argument_list (drop from (texts words.now))) }
{
    let mut arguments = Vec::new(alloc);
    for at in from..words.len() {
        let next = match argument(alloc, word(words, at)) {
            Ok(next) => next,
            Err(fault) => return Err(fault),
        };
        if arguments.push(next).is_err() {
            return Err(LineFault::OutOfMemory);
        }
    }
    Ok(Listed::of(arguments))
}

fn drop_handle(alloc: Global, words: &[&[u8]]) -> Result<Command, LineFault>
    ensures { Gives result (drop_row (texts words.now)) }
{
    let handle = name(alloc, word(words, 1))?;
    Ok(Command::DropHandle { handle })
}

fn weak(alloc: Global, words: &[&[u8]]) -> Result<Command, LineFault>
    ensures { Gives result (weak_row (texts words.now)) }
{
    let handle = name(alloc, word(words, 1))?;
    let context = name(alloc, word(words, 2))?;
    Ok(Command::Weak { handle, context })
}

fn alive(alloc: Global, words: &[&[u8]]) -> Result<Command, LineFault>
    ensures { Gives result (alive_row (texts words.now)) }
{
    let handle = name(alloc, word(words, 1))?;
    Ok(Command::Alive { handle })
}

fn unload(alloc: Global, words: &[&[u8]]) -> Result<Command, LineFault>
    ensures { Gives result (unload_row (texts words.now)) }
{
    let context = name(alloc, word(words, 1))?;
    Ok(Command::Unload { context })
}
