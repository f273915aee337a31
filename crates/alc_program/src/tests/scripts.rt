//! What each form of a script says.
use host_script::{Argument, Command, Script, ScriptFault, read_script};
use std::alloc::{AllocError, Global};
use std::test::Fail;

/// A script with each form, with both line ends, comments, spaces and texts, and an argument of each
/// kind.
const EVERY_FORM: &str =
    "# the head\r\nimage I lib.dll\nimage  J-2 \"a b/\\u00e9.dll\"\napp J-2\n\n  \
    thread\nnew P\r\nnew Q fixed\non P N image J-2\non P \"N N\" share Q\non P N none\n\
    resolving P N image I\nresolving P N share Q\nresolving P N none\n\
    resolve N image I\nresolve N share Q\nresolve N none\nload P I\nbind P N 00.1.65535.4\n\
    thread\nthread\ncall P N T M 007 \"\"\nhold h P N T M\n\
    invoke h -0 -9223372036854775808L true \"\\\"\\\\\\n\\uD800\"\n\
    drop h\nweak w P\nalive w\nunload P\ncollect";

/// The lines of its application, with the number of the image, and those of the commands of each
/// thread, which a zero begins.
const EVERY_LINE: [u32; 26] = [
    4, 2, 0, 7, 8, 9, 10, 11, 12, 13, 14, 15, 16, 17, 18, 19, 0, 0, 22, 23, 24, 25, 26, 27, 28, 29,
];

/// What a text is read as, none of which has more bytes than are taken.
fn read(alloc: Global, text: &[u8]) -> Result<Script, ScriptFault> {
    read_script(alloc, &text[..text.len().min(100_000)])
}

/// The lines of a script, in the order of `EVERY_LINE`.
fn lines_of(alloc: Global, script: &Script) -> Result<Vec<u32>, AllocError> {
    let mut lines = Vec::new(alloc);
    for app in script.app.items() {
        lines.push(app.line)?;
        lines.push(app.image)?;
    }
    for thread in script.threads.items() {
        lines.push(0)?;
        for command in thread.items() {
            lines.push(command.line)?;
        }
    }
    Ok(lines)
}

/// The arguments of the third command of the third thread.
fn arguments_of(script: &Script) -> Option<&[Argument]> {
    let commands = script.threads.items().get(2)?;
    match &commands.items().get(2)?.command {
        Command::Invoke { args, .. } => Some(args.items()),
        _ => None,
    }
}

fn has_every_kind(script: &Script) -> bool {
    match arguments_of(script) {
        Some(
            [
                Argument::I4(0),
                Argument::I8(least),
                Argument::Bool(true),
                Argument::Text(text),
            ],
        ) => *least == i64::MIN && text.units() == [34, 92, 10, 0xD800].as_slice(),
        _ => false,
    }
}

/// Whether the second image is that of `EVERY_FORM`.
fn has_second_image(script: &Script) -> bool {
    let Some(number) = script.images.number(b"J-2") else {
        return false;
    };
    match script.images.line(number) {
        Some(image) => number == 2 && image.line == 3 && image.path.as_str() == "a b/\u{e9}.dll",
        None => false,
    }
}

#[test]
fn reads_every_form(rt: HostRuntime) -> Result<(), Fail> {
    let script = read(rt.alloc(), EVERY_FORM.as_bytes())?;
    assert!(rt; has_second_image(&script) && has_every_kind(&script));
    let lines = lines_of(rt.alloc(), &script)?;
    assert!(rt; lines.as_slice() == EVERY_LINE.as_slice());
    Ok(())
}
