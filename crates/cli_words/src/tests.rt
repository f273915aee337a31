use crate::{
    CheckCode, DivFault, FailedCheck, Listed, Name, NameFault, NumKind, Span, TextFault, Units,
    Utf8Text, Word32, Word64, convert, convert_ovf, first_character, read_compressed, u16_at,
    u32_at, u64_at, zero_after,
};
use std::test::Fail;
use std::thread;

#[test]
fn spells_names(rt: HostRuntime) -> Result<(), Fail> {
    let bytes = [b'n'; 65];
    let (longest, too_long) = (&bytes[..64], bytes.as_slice());
    for bytes in [b"X".as_slice(), b"a-Z_0.9", longest] {
        let name = Name::new(rt.alloc(), bytes)?;
        assert_eq!(rt; name.bytes(), bytes);
    }
    for bytes in [b"".as_slice(), b"a b", b"@", b"[", b"\xc3\xa9", too_long] {
        assert!(rt; matches!(Name::new(rt.alloc(), bytes), Err(NameFault::Bad)));
    }
    Ok(())
}

#[test]
fn shares_across_threads(rt: HostRuntime) -> Result<(), Fail> {
    let name = Name::new(rt.alloc(), b"X.P")?;
    let text = Units::from_utf16_le(rt.alloc(), b"\x00\xd8\x41\x00")?;
    let moved = (name.share(rt.alloc())?, text.share(rt.alloc())?);
    let (theirs, ours) = thread::join(
        &rt,
        move || moved.0.bytes().len() + moved.1.units().len(),
        || name.bytes().len() + text.units().len(),
    );
    assert_eq!(rt; (theirs, ours), (5, 5));
    Ok(())
}

#[test]
fn reads_and_writes_texts(rt: HostRuntime) -> Result<(), Fail> {
    let rows: [(&[u8], &[u8]); 4] = [
        (b"", b""),
        (b"LIB", b"L\0I\0B\0"),
        (b"\xc3\xa9\xe2\x82\xac", b"\xe9\0\xac\x20"),
        (b"\xf0\x9f\x98\x80", b"\x3d\xd8\x00\xde\x61"),
    ];
    for (utf8, utf16) in rows {
        let text = Units::from_utf16_le(rt.alloc(), utf16)?;
        assert!(rt; text == Units::from_utf8(rt.alloc(), utf8)?);
        assert_eq!(rt; text.to_utf8(rt.alloc())?.as_slice(), utf8);
    }
    let bad: [(&[u8], usize); 3] = [
        (b"\xc0", 0),
        (b"\xc3\xa9\xed\xa0\x80", 2),
        (b"ab\xe2\x82", 2),
    ];
    for (bytes, place) in bad {
        let found = Units::from_utf8(rt.alloc(), bytes);
        assert!(rt; matches!(found, Err(TextFault::NotUtf8 { at }) if at == place));
    }
    Ok(())
}

#[test]
fn folds_texts(rt: HostRuntime) -> Result<(), Fail> {
    let mixed = Units::from_utf8(rt.alloc(), b"@AZ[\xc3\x89")?;
    let folded = mixed.fold_ascii(rt.alloc())?;
    assert_eq!(rt; folded.units(), [0x40, 0x61, 0x7A, 0x5B, 0xC9].as_slice());
    assert!(rt; mixed.eq_ignore_ascii_case(&folded));
    assert!(rt; mixed != folded);
    Ok(())
}

#[test]
fn finds_first_characters(rt: HostRuntime) {
    let rows: [(&[u16], Option<u32>, usize); 4] = [
        (&[0x41, 0xDE00], Some(0x41), 1),
        (&[0xD83D, 0xDE00], Some(0x1_F600), 2),
        (&[0xD83D], None, 1),
        (&[0xDE00, 0xD83D], None, 1),
    ];
    for (units, character, taken) in rows {
        assert!(rt; !units.is_empty());
        assert_eq!(rt; first_character(units), (character, taken));
    }
}

#[test]
fn takes_long_texts(rt: HostRuntime) -> Result<(), Fail> {
    let text = Units::from_utf16_le(rt.alloc(), &[0x61; 0x1_0000])?;
    assert_eq!(rt; text.units().len(), 0x8000);
    let utf8 = text.to_utf8(rt.alloc())?;
    assert!(rt; Units::from_utf8(rt.alloc(), &utf8)? == text);
    Ok(())
}

#[test]
fn holds_lists_and_texts(rt: HostRuntime) -> Result<(), Fail> {
    let list = Listed::of([3_u8, 5].to_vec(rt.alloc())?);
    assert_eq!(rt; list.items(), [3, 5].as_slice());
    assert_eq!(rt; list.into_vec().len(), 2);
    let fault = FailedCheck::of(CheckCode::NotIlOnly, 536);
    let text = Utf8Text::of(format!(in rt.alloc(); "{fault}")?);
    assert_eq!(rt; text.as_str(), "not an image: not-il-only at byte 536");
    assert_eq!(rt; text.into_string().len(), 37);
    Ok(())
}

#[test]
fn reads_bytes(rt: HostRuntime) {
    let rows: [(&[u8], Option<(u32, usize)>); 9] = [
        (b"\x7f\xff", Some((127, 1))),
        (b"\x80\x80", Some((128, 2))),
        (b"\xbf\xff", Some((16_383, 2))),
        (b"\xc0\x00\x40\x00", Some((16_384, 4))),
        (b"\xdf\xff\xff\xff", Some((536_870_911, 4))),
        (b"\x80", None),
        (b"\xc0\x00\x40", None),
        (b"\xe0\x00\x00\x00", None),
        (b"", None),
    ];
    for (bytes, found) in rows {
        assert_eq!(rt; read_compressed(bytes, 0), found);
    }
    let bytes = [0xff, 0x4d, 0x5a, 0x90, 0x00, 0x03, 0x00, 0x00, 0x80];
    assert_eq!(rt; u16_at(&bytes, 1), 0x5a4d);
    assert_eq!(rt; u32_at(&bytes, 5), 0x8000_0003);
    assert_eq!(rt; u64_at(&bytes, 1), 0x8000_0003_0090_5a4d);
    let span = Span { at: 2, len: 5 };
    assert!(rt; span.lies_in(bytes.len()));
    assert!(rt; !span.lies_in(6));
    let far = Span {
        at: usize::MAX,
        len: usize::MAX,
    };
    assert!(rt; !far.lies_in(usize::MAX));
    assert_eq!(rt; zero_after(span.cut(&bytes)), Some(2));
    assert_eq!(rt; zero_after(&bytes[..4]), None);
}

#[test]
fn computes_words(rt: HostRuntime) {
    let (least, most, word) = (Word32(i32::MIN), Word32(i32::MAX), Word32(-7));
    for (found, wanted) in [
        (least.neg(), least),
        (word.not(), Word32(6)),
        (most.add(Word32(1)), least),
        (least.sub(Word32(1)), most),
        (Word32(65_537).mul(Word32(65_536)), Word32(65_536)),
        (word.and(Word32(12)), Word32(8)),
        (Word32(5).or(Word32(10)), Word32(15)),
        (word.xor(Word32(-1)), Word32(6)),
        (word.shl(33), Word32(-14)),
        (word.shr(33), Word32(-4)),
        (word.shr_un(33), Word32(2_147_483_644)),
    ] {
        assert_eq!(rt; found, wanted);
    }
    for (found, wanted) in [
        (most.add_ovf(Word32(1)), None),
        (Word32(-1).sub_ovf(least), Some(most)),
        (Word32(1 << 30).mul_ovf(Word32(-2)), Some(least)),
        (most.add_ovf_un(Word32(1)), Some(least)),
        (Word32(0).sub_ovf_un(Word32(1)), None),
        (Word32(65_535).mul_ovf_un(Word32(65_537)), Some(Word32(-1))),
    ] {
        assert_eq!(rt; found, wanted);
    }
    for (found, wanted) in [
        (word.div(Word32(2)), Ok(Word32(-3))),
        (word.rem(Word32(2)), Ok(Word32(-1))),
        (word.div_un(Word32(2)), Ok(Word32(2_147_483_644))),
        (word.rem_un(Word32(2)), Ok(Word32(1))),
        (least.div(Word32(-1)), Err(DivFault::Range)),
        (least.rem(Word32(-1)), Ok(Word32(0))),
        (least.rem_un(Word32(0)), Err(DivFault::Zero)),
    ] {
        assert_eq!(rt; found, wanted);
    }
    let (least, word) = (Word64(i64::MIN), Word64(-7));
    assert_eq!(rt; least.neg(), least);
    assert_eq!(rt; word.shr_un(65), Word64(9_223_372_036_854_775_804));
    assert_eq!(rt;
        word.div_un(Word64(2)),
        Ok(Word64(9_223_372_036_854_775_804))
    );
    assert_eq!(rt; least.div(Word64(-1)), Err(DivFault::Range));
}

#[test]
fn converts_between_kinds(rt: HostRuntime) {
    use NumKind::{I, I1, I2, I4, I8, U, U1, U2, U4, U8};
    let kinds = [I1, I2, I4, I8, U1, U2, U4, U8, I, U];
    let low = 4_294_967_295;
    let rows: [(i64, [i64; 10]); 3] = [
        (-1, [-1, -1, -1, -1, 255, 65_535, low, -1, -1, -1]),
        (
            -129,
            [
                127,
                -129,
                -129,
                -129,
                127,
                65_407,
                4_294_967_167,
                -129,
                -129,
                -129,
            ],
        ),
        (
            i64::MIN,
            [0, 0, 0, i64::MIN, 0, 0, 0, i64::MIN, i64::MIN, i64::MIN],
        ),
    ];
    for (value, results) in rows {
        for (kind, wanted) in kinds.iter().zip(&results) {
            assert_eq!(rt; convert(value, *kind), *wanted);
            assert_eq!(rt; Word64(value).converted(*kind), *wanted);
        }
    }
    for (kind, wanted) in kinds
        .iter()
        .zip(&[-1, -1, -1, -1, 255, 65_535, low, low, -1, low])
    {
        assert_eq!(rt; Word32(-1).converted(*kind), *wanted);
    }
    let rows: [(i64, bool, &[NumKind]); 6] = [
        (-1, false, &[I1, I2, I4, I8, I]),
        (-1, true, &[U8, U]),
        (128, false, &[I2, I4, I8, U1, U2, U4, U8, I, U]),
        (-129, false, &[I2, I4, I8, I]),
        (2_147_483_648, false, &[I8, U4, U8, I, U]),
        (4_294_967_296, true, &[I8, U8, I, U]),
    ];
    for (value, from_unsigned, having) in rows {
        for kind in &kinds {
            let wanted = having.contains(kind).then_some(value);
            assert_eq!(rt; convert_ovf(value, from_unsigned, *kind), wanted);
            assert_eq!(rt; Word64(value).converted_ovf(from_unsigned, *kind), wanted);
        }
    }
    assert_eq!(rt; Word32(-1).converted_ovf(true, U4), Some(low));
    assert_eq!(rt; Word32(-1).converted_ovf(true, I4), None);
    assert_eq!(rt; Word32(-1).converted_ovf(false, I), Some(-1));
    assert_eq!(rt; Word32(-1).converted_ovf(false, U8), None);
}
