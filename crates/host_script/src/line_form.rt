//! What a line says, by the lines above it.
ghost use Rattle.std.specs.Prelude.{◌≡◌, IfOk};
ghost use Rattle.std.specs.List.{list_all};
ghost use Rattle.std.specs.Str.{is_utf8};
ghost use Rattle.host_script.specs.Bytes.{begins_with};
ghost use Rattle.host_script.specs.Words.{texts, word};
ghost use Rattle.host_script.specs.Outcome.{Gives};
ghost use Rattle.host_script.specs.Images.{names, is_among};
ghost use Rattle.host_script.specs.Slot.{new_image, app_image};
ghost use Rattle.host_script.specs.LineForm.{before_of, line_reading, spoken, said, row, image_row};
ghost use Rattle.host_script.specs.LineForm.{app_row, is_word, is_due, has_room};

use crate::cause::{LineCause, LineFault};
use crate::command::Command;
use crate::first_word::{FirstWord, first_word};
use crate::form::{Form, argument_count, form_of};
use crate::images::ImageLines;
use crate::line::is_passed_over;
use crate::row::command;
use crate::text::text_of;
use crate::word::{is_quoted, name, path, used_image};
use crate::words::{word, words};
use crate::{MAX_ARGUMENTS, MAX_COMMANDS, MAX_IMAGES, MAX_THREADS};
use cli_words::{Name, Utf8Text};
use std::alloc::{AllocError, Global};
use std::str;

/// What a line says.
#[derive(Drop)]
pub enum LineForm {
    /// There is an image of this name at this path.
    Image { name: Name, path: Utf8Text },
    /// The image of this name and number is an application.
    App { name: Name, image: u32 },
    /// A thread begins.
    Thread,
    /// The thread at hand has one more command.
    Command(Command),
}

/// What the lines above a line say, as far as it bears on the line.
#[derive(Drop)]
pub struct Above {
    /// The images that are declared.
    pub images: ImageLines,
    /// The names of the images that are applications.
    pub listed: Vec<Name>,
    /// How many threads began.
    pub threads: usize,
    /// How many commands there are, all threads together.
    pub commands: usize,
}

/// What a line says; `None` where it is passed over.
pub fn line_form(alloc: Global, above: &Above, line: &[u8]) -> Result<Option<LineForm>, LineFault>
    ensures { Gives result (line_reading (before_of above.now) line.now) }
{
    if is_passed_over(line) {
        return Ok(None);
    }
    if !is_utf8(line) {
        return Err(LineFault::Cause(LineCause::NotUtf8));
    }
    let Ok(words) = words(alloc, line) else {
        return Err(LineFault::OutOfMemory);
    };
    match spoken(alloc, above, &words) {
        Ok(form) => Ok(Some(form)),
        Err(fault) => Err(fault),
    }
}

fn is_utf8(bytes: &[u8]) -> bool
    ensures { result ≡ is_utf8 bytes.now }
{
    match str::from_utf8(bytes) {
        Ok(_) => true,
        Err(_) => false,
    }
}

/// What the words of a line say.
fn spoken(alloc: Global, above: &Above, words: &[&[u8]]) -> Result<LineForm, LineFault>
    ensures { Gives result (spoken (before_of above.now) (texts words.now)) }
{
    let Ok(are_words) = are_words(alloc, words) else {
        return Err(LineFault::OutOfMemory);
    };
    if !are_words {
        return Err(LineFault::Cause(LineCause::BadText));
    }
    let Some(first) = first_word(word(words, 0)) else {
        return Err(LineFault::Cause(LineCause::UnknownWord));
    };
    said(alloc, above, first, words)
}

/// What the words say, of which the first is known and each text is one.
fn said(
    alloc: Global,
    above: &Above,
    first: FirstWord,
    words: &[&[u8]],
) -> Result<LineForm, LineFault>
    ensures { Gives result (said (before_of above.now) first (texts words.now)) }
{
    if !is_due(above, first) {
        return Err(LineFault::Cause(LineCause::Place));
    }
    let Some(form) = form_of(first, words) else {
        return Err(LineFault::Cause(LineCause::Arity));
    };
    let line = row(alloc, above, form, words)?;
    if !has_room(above, form, words.len()) {
        drop(line);
        return Err(LineFault::Cause(LineCause::TooMany));
    }
    Ok(line)
}

/// Whether each word that begins as a text is one.
fn are_words(alloc: Global, words: &[&[u8]]) -> Result<bool, AllocError>
    ensures { IfOk result (λ r. r ≡ list_all is_word (texts words.now)) }
{
    for at in 0..words.len() {
        if !is_word(alloc, word(words, at))? {
            return Ok(false);
        }
    }
    Ok(true)
}

fn is_word(alloc: Global, word: &[u8]) -> Result<bool, AllocError>
    ensures { IfOk result (λ r. r ≡ is_word word.now) }
{
    if !is_quoted(word) {
        return Ok(true);
    }
    let text = text_of(alloc, word)?;
    Ok(text.is_some())
}

/// Whether lines that begin so may stand here.
fn is_due(above: &Above, first: FirstWord) -> bool
    ensures { result ≡ is_due (before_of above.now) first }
{
    match first {
        FirstWord::Image | FirstWord::App => above.threads == 0,
        FirstWord::Thread => true,
        FirstWord::Command(_) => above.threads > 0,
    }
}

/// What the words say in this form.
fn row(alloc: Global, above: &Above, form: Form, words: &[&[u8]]) -> Result<LineForm, LineFault>
    ensures { Gives result (row (before_of above.now) form (texts words.now)) }
{
    match form {
        Form::Image => image_row(alloc, above, words),
        Form::App => app_row(alloc, above, words),
        Form::Thread => Ok(LineForm::Thread),
        Form::Command(form) => {
            let command = command(alloc, &above.images, form, words)?;
            Ok(LineForm::Command(command))
        }
    }
}

fn image_row(alloc: Global, above: &Above, words: &[&[u8]]) -> Result<LineForm, LineFault>
    ensures { Gives result (image_row (before_of above.now) (texts words.now)) }
{
    let name = new_image(alloc, above, word(words, 1))?;
    let path = path(alloc, word(words, 2))?;
    Ok(LineForm::Image { name, path })
}

/// The name of an image that no line above declares.
fn new_image(alloc: Global, above: &Above, word: &[u8]) -> Result<Name, LineFault>
    ensures { Gives result (new_image (names above.now.images) word.now) }
{
    let name = name(alloc, word)?;
    if above.images.number(name.bytes()).is_some() {
        return Err(LineFault::Cause(LineCause::Twice));
    }
    Ok(name)
}

fn app_row(alloc: Global, above: &Above, words: &[&[u8]]) -> Result<LineForm, LineFault>
    ensures { Gives result (app_row (before_of above.now) (texts words.now)) }
{
    let image = used_image(alloc, &above.images, word(words, 1))?;
    let name = name(alloc, word(words, 1))?;
    if is_listed(above, &name) {
        return Err(LineFault::Cause(LineCause::Twice));
    }
    Ok(LineForm::App { name, image })
}

/// Whether a line above says that the image of this name is an application.
fn is_listed(above: &Above, name: &Name) -> bool
    ensures { result ≡ is_among name.now above.now.listed.items }
{
    above.listed.iter().any(|listed| listed == name)
}

/// Whether a line of this form and with so many words is not one too many.
fn has_room(above: &Above, form: Form, count: usize) -> bool
    ensures { result ≡ has_room (before_of above.now) form count }
{
    match form {
        Form::Image => above.images.count() < MAX_IMAGES,
        Form::App => true,
        Form::Thread => above.threads < MAX_THREADS,
        Form::Command(_) => {
            above.commands < MAX_COMMANDS && argument_count(form, count) <= MAX_ARGUMENTS
        }
    }
}
