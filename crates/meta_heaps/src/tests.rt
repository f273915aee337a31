use crate::{Root, read_root};
use cli_words::CheckCode::{Bounds, Cut, EditStream, NoTables, RootSignature};
use cli_words::{CheckCode, FailedCheck, Span};
use std::alloc::{AllocError, Global};
use std::test::Fail;

/// Where the metadata stands, and how long it is.
const ROOT: Span = Span { at: 3, len: 172 };

/// Three bytes, and then metadata whose stream headers stand at 35, 47, 67, 79 and 95.
fn file(alloc: Global) -> Result<Vec<u8>, AllocError> {
    let mut bytes = Vec::new(alloc);
    for part in [
        b"PE\0".as_slice(),
        b"BSJB\x01\0\x01\0\0\0\0\0\x0c\0\0\0v4.0.30319\0\0\0\0\x05\0",
        b"\x6c\0\0\0\x18\0\0\0#~\0\0",
        b"\x84\0\0\0\x08\0\0\0#Strings\0\0\0\0",
        b"\x8c\0\0\0\x08\0\0\0#US\0",
        b"\x94\0\0\0\x10\0\0\0#GUID\0\0\0",
        b"\xa4\0\0\0\x08\0\0\0#Blob\0\0\0",
        b"\0\0\0\0\x02\0\0\x01\0\0\0\0\0\0\0\0\0\0\0\0\0\0\0\0",
        b"\0Lib\0xyz",
        b"\0\x05h\0i\0\0\x01",
        b"0123456789abcdef",
        b"\0\x03\x06\x07\x08\x02\x09\x80",
    ] {
        bytes.extend_from_slice(part)?;
    }
    Ok(bytes)
}

/// Metadata with one stream, which is empty and has this name.
fn one_stream(alloc: Global, name: &[u8]) -> Result<Vec<u8>, AllocError> {
    let mut bytes = Vec::new(alloc);
    for part in [
        b"BSJB\x01\0\x01\0\0\0\0\0\0\0\0\0\0\0\x01\0".as_slice(),
        b"\0\0\0\0\0\0\0\0",
        name,
    ] {
        bytes.extend_from_slice(part)?;
    }
    Ok(bytes)
}

fn span(at: usize, len: usize) -> Span {
    Span { at, len }
}

fn bad(code: CheckCode, at: u32) -> Result<Root, FailedCheck> {
    Err(FailedCheck { code, at })
}

#[test]
fn reads_streams(rt: HostRuntime) -> Result<(), Fail> {
    let whole = Root {
        tables: span(111, 24),
        strings: span(135, 8),
        user_strings: span(143, 8),
        guids: span(151, 16),
        blobs: span(167, 8),
    };
    let missing = span(3, 0);
    let rows: [(&[(usize, u8)], Result<Root, FailedCheck>); 12] = [
        (&[], Ok(whole)),
        // the second `#GUID`, and no `#Blob`
        (
            &[(104, b'G'), (105, b'U'), (106, b'I'), (107, b'D')],
            Ok(Root {
                blobs: missing,
                ..whole
            }),
        ),
        (
            &[(55, b'$'), (51, 40)],
            Ok(Root {
                strings: missing,
                ..whole
            }),
        ),
        (&[(6, 0x43)], bad(RootSignature, 3)),
        (&[(16, 1)], bad(Bounds, 3)),
        // one header more: what follows the last one has a size past the metadata
        (&[(33, 6)], bad(Bounds, 111)),
        (&[(51, 41)], bad(Bounds, 47)),
        (&[(50, 0xff)], bad(Bounds, 47)),
        (&[(76, b'-'), (77, 0)], bad(EditStream, 67)),
        (&[(76, b'-'), (77, 0), (99, 9)], bad(Bounds, 95)),
        (&[(44, b'x')], bad(NoTables, 3)),
        (&[(39, 23)], bad(NoTables, 3)),
    ];
    for (edits, answer) in rows {
        let mut bytes = file(rt.alloc())?;
        for (at, byte) in edits {
            if let Some(place) = bytes.get_mut(*at) {
                *place = *byte;
            }
        }
        assert_eq!(rt; bytes.len(), 175);
        assert_eq!(rt; read_root(&bytes, ROOT), answer);
    }
    Ok(())
}

#[test]
fn refuses_what_is_cut(rt: HostRuntime) -> Result<(), Fail> {
    let bytes = file(rt.alloc())?;
    assert_eq!(rt; bytes.len(), 175);
    for (root, answer) in [
        (span(3, 173), bad(Cut, 175)),
        (span(usize::MAX, usize::MAX), bad(Cut, 175)),
        (span(175, 0), bad(RootSignature, 175)),
        (span(3, 4), bad(Bounds, 3)),
        (span(3, 31), bad(Bounds, 3)),
        (span(3, 32), bad(Bounds, 35)),
        (span(3, 171), bad(Bounds, 95)),
    ] {
        assert_eq!(rt; read_root(&bytes, root), answer);
    }
    let rows: [(&[u8], Result<Root, FailedCheck>); 5] = [
        (b"0123456789012345678901234567890\0", bad(NoTables, 0)),
        (b"01234567890123456789012345678901\0\0\0\0", bad(Bounds, 20)),
        (b"#-\0\0", bad(EditStream, 20)),
        (b"#-\0", bad(Bounds, 20)),
        (b"#~", bad(Bounds, 20)),
    ];
    for (name, answer) in rows {
        let bytes = one_stream(rt.alloc(), name)?;
        assert!(rt; bytes.len() < 100);
        assert_eq!(rt; read_root(&bytes, span(0, bytes.len())), answer);
    }
    Ok(())
}

#[test]
fn finds_entries(rt: HostRuntime) -> Result<(), Fail> {
    let bytes = file(rt.alloc())?;
    assert_eq!(rt; bytes.len(), 175);
    let root = read_root(&bytes, ROOT)?;
    for (index, string, blob, text, guid) in [
        (0, Some(span(135, 0)), Some(span(168, 0)), None, None),
        (
            1,
            Some(span(136, 3)),
            Some(span(169, 3)),
            Some(span(145, 4)),
            Some(span(151, 16)),
        ),
        (3, Some(span(138, 1)), None, None, None),
        (5, None, Some(span(173, 2)), None, None),
        (7, None, None, None, None),
        (8, None, None, None, None),
        (u32::MAX, None, None, None, None),
    ] {
        assert_eq!(rt; root.string(&bytes, index), string);
        assert_eq!(rt; root.blob(&bytes, index), blob);
        assert_eq!(rt; root.user_string(&bytes, index), text);
        assert_eq!(rt; root.guid(&bytes, index), guid);
    }
    let empty = Root {
        strings: Span { at: 3, len: 0 },
        blobs: Span { at: 175, len: 0 },
        ..root
    };
    assert_eq!(rt; empty.string(&bytes, 0), None);
    assert_eq!(rt; empty.blob(&bytes, 0), Some(span(175, 0)));
    assert_eq!(rt; empty.blob(&bytes, 1), None);
    Ok(())
}
