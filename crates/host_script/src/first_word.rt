//! The words with which lines begin.
ghost use Rattle.std.specs.Prelude.{◌≡◌};
ghost use Rattle.host_script.specs.FirstWord.{first_word, other_word, command_word};
ghost use Rattle.host_script.specs.FirstWord.{binding_word, handle_word, context_word};

use crate::bytes::same;

/// The word with which a command begins.
#[derive(Clone, Copy)]
pub enum CommandWord {
    On,
    Resolving,
    Resolve,
    Load,
    Bind,
    Call,
    Hold,
    Invoke,
    DropHandle,
    Weak,
    Alive,
    New,
    Unload,
    Collect,
}

/// The word with which a line begins.
#[derive(Clone, Copy)]
pub enum FirstWord {
    Image,
    App,
    Thread,
    Command(CommandWord),
}

/// The first word that is spelled so; `None` where no line begins with it.
pub fn first_word(word: &[u8]) -> Option<FirstWord>
    ensures { result ≡ first_word word.now }
{
    if let Some(first) = other_word(word) {
        return Some(first);
    }
    Some(FirstWord::Command(command_word(word)?))
}

fn command_word(word: &[u8]) -> Option<CommandWord>
    ensures { result ≡ command_word word.now }
{
    if let Some(command) = binding_word(word) {
        return Some(command);
    }
    if let Some(command) = handle_word(word) {
        return Some(command);
    }
    context_word(word)
}

fn other_word(word: &[u8]) -> Option<FirstWord>
    ensures { result ≡ other_word word.now }
{
    if same(word, b"image") {
        return Some(FirstWord::Image);
    }
    if same(word, b"app") {
        return Some(FirstWord::App);
    }
    if same(word, b"thread") {
        return Some(FirstWord::Thread);
    }
    None
}

fn binding_word(word: &[u8]) -> Option<CommandWord>
    ensures { result ≡ binding_word word.now }
{
    if same(word, b"on") {
        return Some(CommandWord::On);
    }
    if same(word, b"resolving") {
        return Some(CommandWord::Resolving);
    }
    if same(word, b"resolve") {
        return Some(CommandWord::Resolve);
    }
    if same(word, b"load") {
        return Some(CommandWord::Load);
    }
    if same(word, b"bind") {
        return Some(CommandWord::Bind);
    }
    None
}

fn handle_word(word: &[u8]) -> Option<CommandWord>
    ensures { result ≡ handle_word word.now }
{
    if same(word, b"call") {
        return Some(CommandWord::Call);
    }
    if same(word, b"hold") {
        return Some(CommandWord::Hold);
    }
    if same(word, b"invoke") {
        return Some(CommandWord::Invoke);
    }
    if same(word, b"drop") {
        return Some(CommandWord::DropHandle);
    }
    None
}

fn context_word(word: &[u8]) -> Option<CommandWord>
    ensures { result ≡ context_word word.now }
{
    if same(word, b"weak") {
        return Some(CommandWord::Weak);
    }
    if same(word, b"alive") {
        return Some(CommandWord::Alive);
    }
    if same(word, b"new") {
        return Some(CommandWord::New);
    }
    if same(word, b"unload") {
        return Some(CommandWord::Unload);
    }
    if same(word, b"collect") {
        return Some(CommandWord::Collect);
    }
    None
}
