//! The program `alc`: runs scripts on a host and reports what came of them, and tells what an
//! image of an assembly names.
#![tactic(auto)]

mod files;
mod images;
mod inspect;
mod inspection;
mod laws;
mod load;
mod program;
mod run;
mod status;
#[cfg(test)]
mod tests;
mod unbuilt;
mod words;

pub use laws::{good_is_printable, good_is_proper, one_run};
use plug_io::{DirFiles, OpenGate, StdSink};
pub use program::{alc, alc_alone};
pub use status::Status;
use std::process::ExitCode;
use std::{env, io};

fn main(rt: HostRuntime) -> ExitCode {
    let mut files = DirFiles { rt, faults: 0 };
    let mut out = StdSink { rt, faults: 0 };
    let status = match arguments(&rt) {
        Ok(words) => alc(&rt, rt.alloc(), &words, &mut files, &mut out, &OpenGate),
        Err(error) => Status::of_unread_words(error.kind()),
    };
    if status != Status::Done {
        let _ = eprintln!(rt; "{status}");
    }
    ExitCode::from(status.exit())
}

/// The words that the program was called with, without its own name. A word that is not UTF-8 is an
/// error.
fn arguments(rt: &HostRuntime) -> io::Result<Vec<String>> {
    let mut words = Vec::new(rt.alloc());
    for word in env::args(rt)?.skip(1) {
        words.push(word)?;
    }
    Ok(words)
}
