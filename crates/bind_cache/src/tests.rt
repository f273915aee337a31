ghost use Rattle.std.specs.Prelude.{◌+◌, ◌<◌, ◌≤◌};

use crate::{Bindings, a_publication_changes_one_name};
use assembly_name::SimpleName;
use cli_words::Units;
use std::alloc::Global;
use std::test::Fail;
use std::thread;

fn name(alloc: Global, bytes: &[u8]) -> Result<SimpleName, Fail> {
    Ok(SimpleName::of(Units::from_utf8(alloc, bytes)?))
}

fn publish(
    bindings: &mut Bindings,
    alloc: Global,
    context: u32,
    bytes: &[u8],
    assembly: u32,
) -> Result<Option<u32>, Fail>
    requires { 0 < bindings.old.spare }
    ensures { bindings.old.spare ≤ bindings.new.spare + 1 }
{
    let name = name(alloc, bytes)?;
    Ok(bindings.publish_reserved(context, name, assembly))
}

#[test]
fn the_first_publisher_wins(rt: HostRuntime) -> Result<(), Fail> {
    let mut bindings = Bindings::new(rt.alloc(), 4)?;
    // Two racers publish one name in one context: the second is told of the first's assembly.
    let first = publish(&mut bindings, rt.alloc(), 1, b"Lib", 1)?;
    let second = publish(&mut bindings, rt.alloc(), 1, b"LIB", 2)?;
    let elsewhere = publish(&mut bindings, rt.alloc(), 2, b"lib", 2)?;
    let another = publish(&mut bindings, rt.alloc(), 1, b"Use", 3)?;
    assert_eq!(rt;
        (first, second, elsewhere, another),
        (None, Some(1), None, None)
    );

    let rows: [(u32, &[u8], Option<u32>); 6] = [
        (1, b"lIb", Some(1)),
        (2, b"Lib", Some(2)),
        (1, b"Use", Some(3)),
        (2, b"Use", None),
        (0, b"Lib", None),
        (1, b"Li", None),
    ];
    for (context, bytes, assembly) in rows {
        let name = name(rt.alloc(), bytes)?;
        assert_eq!(rt; bindings.lookup(context, &name), assembly);
    }
    a_publication_changes_one_name();
    let name = name(rt.alloc(), b"Lib")?;
    let (found, one) = thread::join(&rt, move || bindings.lookup(2, &name), || 1);
    assert_eq!(rt; (found, one), (Some(2), 1));
    Ok(())
}
