ghost use Rattle.std.specs.Prelude.{◌+◌, ◌<◌, ◌≤◌};

use crate::{AppList, RulePlace, Rules};
use assembly_name::{SimpleName, Version};
use cli_words::Units;
use host_events::RuleAnswer;
use std::alloc::Global;
use std::test::Fail;
use std::thread;

fn name(alloc: Global, bytes: &[u8]) -> Result<SimpleName, Fail> {
    Ok(SimpleName::of(Units::from_utf8(alloc, bytes)?))
}

fn set(
    rules: &mut Rules,
    alloc: Global,
    place: RulePlace,
    bytes: &[u8],
    image: u32,
) -> Result<(), Fail>
    requires { 0 < rules.old.spare }
    ensures { rules.old.spare ≤ rules.new.spare + 1 }
{
    let name = name(alloc, bytes)?;
    rules.add_reserved(place, name, RuleAnswer::Image(image));
    Ok(())
}

fn image(rules: &Rules, place: RulePlace, name: &SimpleName, n: u32) -> Option<u32> {
    match rules.nth(place, name, n) {
        Some(RuleAnswer::Image(image)) => Some(*image),
        _ => None,
    }
}

#[test]
fn rules_stand_in_the_order_in_which_they_were_set(rt: HostRuntime) -> Result<(), Fail> {
    let mut rules = Rules::new(rt.alloc(), 5)?;
    set(&mut rules, rt.alloc(), RulePlace::Load(1), b"Lib", 7)?;
    set(&mut rules, rt.alloc(), RulePlace::Load(2), b"Lib", 3)?;
    set(&mut rules, rt.alloc(), RulePlace::Resolving(1), b"Lib", 4)?;
    set(&mut rules, rt.alloc(), RulePlace::Load(1), b"LIB", 5)?;
    set(&mut rules, rt.alloc(), RulePlace::Resolve, b"Use", 6)?;
    let rows: [(RulePlace, &[u8], u32, [Option<u32>; 4]); 6] = [
        (
            RulePlace::Load(1),
            b"lib",
            2,
            [None, Some(7), Some(5), None],
        ),
        (RulePlace::Load(2), b"Lib", 1, [None, Some(3), None, None]),
        (
            RulePlace::Resolving(1),
            b"Lib",
            1,
            [None, Some(4), None, None],
        ),
        (RulePlace::Resolving(2), b"Lib", 0, [None, None, None, None]),
        (RulePlace::Resolve, b"Use", 1, [None, Some(6), None, None]),
        (RulePlace::Resolve, b"Lib", 0, [None, None, None, None]),
    ];
    for (place, bytes, count, images) in rows {
        let name = name(rt.alloc(), bytes)?;
        assert_eq!(rt; rules.count(place, &name), count);
        for n in 0..4 {
            assert_eq!(rt; image(&rules, place, &name, n), images[n as usize]);
        }
    }
    let name = name(rt.alloc(), b"Lib")?;
    let (found, one) = thread::join(
        &rt,
        move || image(&rules, RulePlace::Load(1), &name, 2),
        || 1,
    );
    assert_eq!(rt; (found, one), (Some(5), 1));
    Ok(())
}

#[test]
fn the_first_file_of_a_name_is_found(rt: HostRuntime) -> Result<(), Fail> {
    let version = Version {
        major: 1,
        minor: 0,
        build: 0,
        revision: 0,
    };
    let files = vec![in rt.alloc();
        (name(rt.alloc(), b"Lib")?, 2),
        (name(rt.alloc(), b"LIB")?, 1),
    ]?;
    let list = AppList::of(files, vec![in rt.alloc(); None, Some(version)]?);
    let rows: [(&[u8], Option<u32>); 2] = [(b"lib", Some(2)), (b"Use", None)];
    for (bytes, image) in rows {
        assert_eq!(rt; list.first(&name(rt.alloc(), bytes)?), image);
    }
    for (image, found) in [(0, None), (1, None), (2, Some(version)), (3, None)] {
        assert_eq!(rt; list.version(image), found);
    }
    let (found, one) = thread::join(&rt, move || list.version(2), || 1);
    assert_eq!(rt; (found, one), (Some(version), 1));
    Ok(())
}
