//! The forms of lines.
ghost use Rattle.std.specs.Prelude.{◌≡◌, ◌<◌, length};
ghost use Rattle.host_script.specs.Words.{texts};
ghost use Rattle.host_script.specs.Form.{exactly, at_least, form_of, command_form, argument_count};
ghost use Rattle.host_script.specs.Form.{answer_form, image_or_share};

use crate::bytes::same;
use crate::first_word::{CommandWord, FirstWord};
use crate::words::word;

/// The last words of a rule, which say what it answers.
#[derive(Clone, Copy)]
pub enum AnswerForm {
    /// `image I`
    Image,
    /// `share Q`
    Share,
    /// `none`
    Nothing,
}

/// The form of a command, with I an image, P and Q contexts, N an assembly, v a version, T a type,
/// M a method, h a handle and w a weak handle.
#[derive(Clone, Copy)]
pub enum CommandForm {
    /// `new P`
    New,
    /// `new P fixed`
    NewFixed,
    /// `on P N` and an answer
    On(AnswerForm),
    /// `resolving P N` and an answer
    Resolving(AnswerForm),
    /// `resolve N` and an answer
    Resolve(AnswerForm),
    /// `load P I`
    Load,
    /// `bind P N v`
    Bind,
    /// `call P N T M` and arguments
    Call,
    /// `hold h P N T M`
    Hold,
    /// `invoke h` and arguments
    Invoke,
    /// `drop h`
    DropHandle,
    /// `weak w P`
    Weak,
    /// `alive w`
    Alive,
    /// `unload P`
    Unload,
    /// `collect`
    Collect,
}

/// The form of a line.
#[derive(Clone, Copy)]
pub enum Form {
    /// `image I path`
    Image,
    /// `app I`
    App,
    /// `thread`
    Thread,
    /// A command.
    Command(CommandForm),
}

/// The form of the words, of which the first is known; `None` where no form that begins so has so
/// many words.
pub fn form_of(first: FirstWord, words: &[&[u8]]) -> Option<Form>
    ensures { result ≡ form_of first (texts words.now) }
{
    match first {
        FirstWord::Image if words.len() == 3 => Some(Form::Image),
        FirstWord::App if words.len() == 2 => Some(Form::App),
        FirstWord::Thread if words.len() == 1 => Some(Form::Thread),
        FirstWord::Command(first) => Some(Form::Command(command_form(first, words)?)),
        _ => None,
    }
}

fn command_form(first: CommandWord, words: &[&[u8]]) -> Option<CommandForm>
    ensures { result ≡ command_form first (texts words.now) }
{
    let count = words.len();
    match first {
        CommandWord::New if count == 3 => Some(CommandForm::NewFixed),
        CommandWord::New => exactly(2, count, CommandForm::New),
        CommandWord::On => Some(CommandForm::On(answer_form(words, 3)?)),
        CommandWord::Resolving => Some(CommandForm::Resolving(answer_form(words, 3)?)),
        CommandWord::Resolve => Some(CommandForm::Resolve(answer_form(words, 2)?)),
        CommandWord::Load => exactly(3, count, CommandForm::Load),
        CommandWord::Bind => exactly(4, count, CommandForm::Bind),
        CommandWord::Call => at_least(5, count, CommandForm::Call),
        CommandWord::Hold => exactly(6, count, CommandForm::Hold),
        CommandWord::Invoke => at_least(2, count, CommandForm::Invoke),
        CommandWord::DropHandle => exactly(2, count, CommandForm::DropHandle),
        CommandWord::Weak => exactly(3, count, CommandForm::Weak),
        CommandWord::Alive => exactly(2, count, CommandForm::Alive),
        CommandWord::Unload => exactly(2, count, CommandForm::Unload),
        CommandWord::Collect => exactly(1, count, CommandForm::Collect),
    }
}

fn exactly(due: usize, count: usize, form: CommandForm) -> Option<CommandForm>
    ensures { result ≡ exactly due count form }
{
    if count == due { Some(form) } else { None }
}

fn at_least(due: usize, count: usize, form: CommandForm) -> Option<CommandForm>
    ensures { result ≡ at_least due count form }
{
    if due <= count { Some(form) } else { None }
}

/// The answer whose words begin at place `at`, the line's first word being at 0.
fn answer_form(words: &[&[u8]], at: usize) -> Option<AnswerForm>
    requires { at < 4 }
    ensures { result ≡ answer_form (texts words.now) at }
{
    if words.len() == at + 1 {
        return Some(AnswerForm::Nothing);
    }
    if words.len() == at + 2 {
        return Some(image_or_share(word(words, at)));
    }
    None
}

fn image_or_share(word: &[u8]) -> AnswerForm
    ensures { result ≡ image_or_share word.now }
{
    if same(word, b"share") {
        AnswerForm::Share
    } else {
        AnswerForm::Image
    }
}

/// How many arguments stand on a line of this form with so many words.
pub fn argument_count(form: Form, count: usize) -> usize
    ensures { result ≡ argument_count form count }
{
    match form {
        Form::Command(CommandForm::Call) => count.saturating_sub(5),
        Form::Command(CommandForm::Invoke) => count.saturating_sub(2),
        _ => 0,
    }
}
