//! Scripts: what the images, the applications and the threads of a host are. A script is read from
//! its text; each line has one form or one cause for which the script is refused.
#![tactic(auto)]

mod bytes;
mod cause;
mod command;
mod first_word;
mod form;
mod images;
mod laws;
mod line;
mod line_form;
mod number;
mod reading;
mod row;
mod script;
mod text;
mod word;
mod words;

pub use cause::{LineCause, ScriptFault};
pub use command::{Argument, Command, CommandLine, ScriptAnswer};
pub use images::{ImageLine, ImageLines};
pub use laws::{
    accepted_is_small, accepted_is_worded, first_words_are_read, one_refusal, one_script,
    refused_or_accepted, texts_are_spelled,
};
pub use script::{AppLine, Script, read_script};

/// The greatest number of bytes of a script's file.
pub const MAX_SCRIPT: u32 = 1_048_576;

/// The greatest number of images in a script.
pub const MAX_IMAGES: usize = 256;

/// The greatest number of threads in a script.
pub const MAX_THREADS: usize = 8;

/// The greatest number of commands in a script, all threads together.
pub const MAX_COMMANDS: usize = 1024;

/// The greatest number of arguments of a command.
pub const MAX_ARGUMENTS: usize = 32;
