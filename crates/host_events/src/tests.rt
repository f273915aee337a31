use crate::{
    CommandEnd, End, Entry, Event, Journal, Lines, Listed, Numbers, Outcome, Reply, Text,
    assemblies_stay, named_are_made, one_reply, own_entries_tell_open, own_entries_tell_replies,
    own_entries_tell_within,
};
use cli_words::Units;
use signatures::Prim;
use std::test::Fail;
use std::thread;

#[test]
fn lists_take_what_they_have_room_for(rt: HostRuntime) -> Result<(), Fail> {
    let mut numbers = Numbers::new(rt.alloc(), 2)?;
    numbers.push_reserved(7);
    numbers.push_reserved(u32::MAX);
    assert!(rt; numbers.sealed().numbers() == [7, u32::MAX].as_slice());

    let mut text = Text::new(rt.alloc(), 1)?;
    text.push_reserved(0xd800);
    assert!(rt; text.units() == [0xd800].as_slice());
    assert!(rt; Text::new(rt.alloc(), 0)?.units().is_empty());

    one_reply();
    own_entries_tell_open();
    own_entries_tell_within();
    own_entries_tell_replies();
    named_are_made();
    assemblies_stay();

    // The types of signatures can be named in a crate above theirs.
    assert!(rt; Prim::Int32 != Prim::Int64);
    Ok(())
}

#[test]
fn ends_and_journals_cross_threads(rt: HostRuntime) -> Result<(), Fail> {
    let line = Units::of(rt.alloc(), [0x68, 0x69].to_vec(rt.alloc())?)?;
    let end: End = Listed::of(vec![in rt.alloc();
        CommandEnd {
            lines: Lines::of(vec![in rt.alloc(); line]?),
            outcome: Outcome::Replied(Reply::NoContext),
        },
    ]?);
    let journal: Journal = Listed::of(vec![in rt.alloc();
        Entry {
            thread: 1,
            event: Event::Collect,
            reply: Reply::Freed(Numbers::new(rt.alloc(), 0)?),
        },
    ]?);
    let (commands, entries) = thread::join(
        &rt,
        move || end.items().len(),
        move || journal.items().len(),
    );
    assert!(rt; commands == 1 && entries == 1);
    Ok(())
}
