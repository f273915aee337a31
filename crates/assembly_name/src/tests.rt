use crate::{AssemblyRef, SimpleName, Version, accepts, same_name};
use cli_words::Units;
use std::alloc::Global;
use std::test::Fail;
use std::thread;

fn version(parts: [u16; 4]) -> Version {
    let [major, minor, build, revision] = parts;
    Version {
        major,
        minor,
        build,
        revision,
    }
}

fn name(alloc: Global, bytes: &[u8]) -> Result<SimpleName, Fail> {
    Ok(SimpleName::of(Units::from_utf8(alloc, bytes)?))
}

#[test]
fn compares_versions_from_the_left(rt: HostRuntime) {
    for (found, wanted, good) in [
        ([1, 9, 9, 9], [2, 0, 0, 0], false),
        ([2, 0, 0, 0], [2, 0, 0, 0], true),
        ([2, 0, 0, 0], [1, 9, 9, 9], true),
        ([1, 2, 0, 0], [1, 1, 9, 9], true),
        ([1, 1, 9, 9], [1, 2, 0, 0], false),
        ([1, 1, 2, 0], [1, 1, 1, 9], true),
        ([1, 1, 1, 0], [1, 1, 1, 1], false),
        ([1, 1, 1, 65_535], [1, 1, 1, 65_534], true),
    ] {
        assert_eq!(rt; accepts(version(found), version(wanted)), good);
    }
}

#[test]
fn compares_names_without_case(rt: HostRuntime) -> Result<(), Fail> {
    let rows: [(&[u8], &[u8], bool); 6] = [
        (b"Lib", b"lIB", true),
        (b"", b"", true),
        (b"Lib", b"Libs", false),
        (b"@[", b"`{", false),
        (b"\xc3\xa9", b"\xc3\x89", false),
        (b"System.Runtime", b"system.runtime", true),
    ];
    for (a, b, same) in rows {
        let (a, b) = (name(rt.alloc(), a)?, name(rt.alloc(), b)?);
        assert_eq!(rt; same_name(&a, &b), same);
    }
    let wanted = AssemblyRef {
        name: name(rt.alloc(), b"Lib")?,
        version: version([1, 0, 0, 0]),
    };
    let shared = wanted.name.share(rt.alloc())?;
    assert!(rt; shared == wanted.name);
    assert!(rt; shared != name(rt.alloc(), b"lib")?);
    assert_eq!(rt; shared.units().units().len(), 3);
    let other = AssemblyRef {
        name: shared,
        version: version([1, 0, 0, 1]),
    };
    assert!(rt; wanted != other);
    Ok(())
}

#[test]
fn names_cross_threads(rt: HostRuntime) -> Result<(), Fail> {
    let (mine, theirs) = (name(rt.alloc(), b"Lib")?, name(rt.alloc(), b"lib")?);
    let moved = mine.share(rt.alloc())?;
    let (same, length) = thread::join(
        &rt,
        move || same_name(&moved, &theirs),
        || mine.units().units().len(),
    );
    assert!(rt; same);
    assert_eq!(rt; length, 3);
    Ok(())
}
