use crate::Contexts;
use cli_words::Name;
use std::test::Fail;
use std::thread;

#[test]
fn a_name_means_the_context_that_was_made_last(rt: HostRuntime) -> Result<(), Fail> {
    let mut contexts = Contexts::new(rt.alloc(), 2)?;
    let plugin = Name::new(rt.alloc(), b"P")?;
    let default = Name::new(rt.alloc(), b"default")?;
    assert_eq!(rt; contexts.named(&plugin), None);
    contexts.add_reserved(1, plugin.share(rt.alloc())?, true);
    contexts.add_reserved(3, plugin.share(rt.alloc())?, false);
    assert_eq!(rt; contexts.named(&plugin), Some(3));
    assert_eq!(rt; contexts.named(&default), Some(0));

    // A context that is taken out has no name, and its room is spare again.
    contexts.take(3);
    contexts.unload(1);
    assert_eq!(rt; contexts.named(&plugin), Some(1));
    for (number, known) in [
        (0, Some((false, false))),
        (1, Some((true, true))),
        (2, None),
        (3, None),
    ] {
        let row = contexts
            .row(number)
            .map(|row| (row.collectible, row.unloaded));
        assert_eq!(rt; row, known);
    }
    contexts.add_reserved(4, plugin.share(rt.alloc())?, true);
    let (found, one) = thread::join(&rt, move || contexts.named(&plugin), || 1);
    assert_eq!(rt; (found, one), (Some(4), 1));
    Ok(())
}
