use crate::{Intrinsic, intrinsic, method, parent, prim, type_row};
use cli_words::Units;
use signatures::Prim;
use std::test::Fail;

#[test]
fn finds_types_by_their_full_names(rt: HostRuntime) -> Result<(), Fail> {
    let rows: [(&[u8], Option<u32>, Option<Prim>); 7] = [
        (b"System.Object", Some(1), None),
        (b"System.Console", Some(3), None),
        (b"System.ArrayTypeMismatchException", Some(12), None),
        (b"System.Int32", None, Some(Prim::Int32)),
        (b"System.UIntPtr", None, Some(Prim::UNative)),
        (b"Object", None, None),
        (b"System.object", None, None),
    ];
    for (name, row, number) in rows {
        let Ok(full) = Units::from_utf8(rt.alloc(), name) else {
            return Err(Fail::new("no text"));
        };
        assert_eq!(rt; type_row(&full), row);
        assert_eq!(rt; prim(&full), number);
    }
    assert_eq!(rt; parent(8), Some(6));
    assert_eq!(rt; parent(1), None);
    assert_eq!(rt; parent(13), None);
    Ok(())
}

#[test]
fn finds_each_method_by_what_its_number_gives(rt: HostRuntime) -> Result<(), Fail> {
    for number in 1..32 {
        let Some((row, name, sig)) = method(rt.alloc(), number)? else {
            return Err(Fail::new("no method"));
        };
        assert_eq!(rt; intrinsic(row, &name, &sig), Some(Intrinsic { number }));
        assert_eq!(rt; intrinsic(row + 12, &name, &sig), None);
    }
    Ok(())
}
