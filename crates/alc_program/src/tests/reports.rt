use cli_words::{Name, Units};
use host_events::{
    CommandEnd, ContextKind, End, Entry, Event, Journal, Lines, Listed, Numbers, Outcome, Reply,
};
use host_report::{Line, report};
use plug_io::MemSink;
use std::alloc::{AllocError, Global};
use std::test::Fail;

/// The end of a command that printed one line of these units.
fn printed(alloc: Global, units: &[u16]) -> Result<CommandEnd, Fail> {
    let line = Units::of(alloc, units.to_vec(alloc)?)?;
    Ok(CommandEnd {
        lines: Lines::of(vec![in alloc; line]?),
        outcome: Outcome::Replied(Reply::NoContext),
    })
}

/// The end of a `collect` that freed two contexts.
fn freed(alloc: Global) -> Result<CommandEnd, AllocError> {
    let mut numbers = Numbers::new(alloc, 2)?;
    numbers.push_reserved(2);
    numbers.push_reserved(10);
    Ok(CommandEnd {
        lines: Lines::of(Vec::new(alloc)),
        outcome: Outcome::Replied(Reply::Freed(numbers)),
    })
}

const REPORT: &str = "alc 1\n\
    thread 1\n\
    print \"\"\n\
    NoContext\n\
    print \"\\\"\\\\\\n\\u0001\\u007F\"\n\
    NoContext\n\
    print \"\\uD800A\\uDFFF\"\n\
    NoContext\n\
    print \"\u{1f600}\u{e9}\u{20ac}\"\n\
    NoContext\n\
    print \"\\uD83D\u{1f600}\"\n\
    NoContext\n\
    thread 2\n\
    Freed 2 10\n\
    journal 1\n\
    1 2 new a.b fixed -> Exists 4294967295\n\
    end\n";

/// The ends of two threads.
fn ends(alloc: Global) -> Result<Vec<End>, Fail> {
    let mut first = Vec::new(alloc);
    for units in [
        [].as_slice(),
        &[0x22, 0x5c, 0x0a, 0x01, 0x7f],
        &[0xd800, 0x41, 0xdfff],
        &[0xd83d, 0xde00, 0xe9, 0x20ac],
        &[0xd83d, 0xd83d, 0xde00],
    ] {
        first.push(printed(alloc, units)?)?;
    }
    let second = vec![in alloc; freed(alloc)?]?;
    Ok(vec![in alloc; Listed::of(first), Listed::of(second)]?)
}

/// A journal of one entry.
fn journal(alloc: Global) -> Result<Journal, Fail> {
    let entry = Entry {
        thread: 2,
        event: Event::New {
            name: Name::new(alloc, b"a.b")?,
            kind: ContextKind::Fixed,
        },
        reply: Reply::Exists(u32::MAX),
    };
    Ok(Listed::of(vec![in alloc; entry]?))
}

/// Whether the report is written whole, and what is written of at most so many bytes.
fn written(alloc: Global, room: usize) -> Result<(bool, Vec<u8>), Fail> {
    let ends = ends(alloc)?;
    let journal = journal(alloc)?;
    let mut line = Line::new(alloc)?;
    let mut sink = MemSink::new(alloc, room)?;
    let is_whole = report(&mut line, &ends, &journal, &mut sink).is_ok();
    Ok((is_whole, sink.written))
}

#[test]
fn reports_lines_and_lists(rt: HostRuntime) -> Result<(), Fail> {
    for (room, whole) in [(4096, true), (100, false), (10, false), (0, false)] {
        let (is_whole, text) = written(rt.alloc(), room)?;
        assert!(rt; is_whole == whole && (text.len() == REPORT.len()) == whole);
        assert!(rt; REPORT.as_bytes().starts_with(text.as_slice()));
    }
    Ok(())
}
