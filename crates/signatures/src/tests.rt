ghost use Rattle.std.specs.Prelude.{◌≡◌, IfOk, length};
ghost use Rattle.cli_words.specs.Span.{LiesIn};
ghost use Rattle.signatures.specs.Keys.{IsTypeKey};

use crate::{
    Feature, Key, KeyFault, KeyPart, Prim, Sig, SigFault, SigPart, TypeKey, field_sig, local_sig,
    method_sig, substitute, type_sig,
};
use cli_words::Span;
use std::alloc::{AllocError, Global};
use std::test::Fail;
use std::thread;

const INT32: SigPart = SigPart::Prim(Prim::Int32);

const TEXT: SigPart = SigPart::Prim(Prim::Text);

/// What a blob is the signature of.
#[derive(Clone, Copy)]
enum Kind {
    Field,
    Method,
    Locals,
    Type,
}

fn all_of(bytes: &[u8]) -> Span
    ensures { LiesIn (length bytes.now) result }
{
    Span {
        at: 0,
        len: bytes.len(),
    }
}

/// The types of a signature, in their order.
fn read(alloc: Global, kind: Kind, bytes: &[u8]) -> Result<Vec<Sig>, SigFault> {
    let blob = all_of(bytes);
    let sigs = match kind {
        Kind::Field => vec![in alloc; field_sig(alloc, bytes, blob)?],
        Kind::Type => vec![in alloc; type_sig(alloc, bytes, blob)?],
        Kind::Locals => return local_sig(alloc, bytes, blob),
        Kind::Method => {
            let sig = method_sig(alloc, bytes, blob)?;
            let mut sigs = sig.params.into_vec();
            if let Some(result) = sig.result {
                sigs.insert(0, result).map_err(|_| SigFault::OutOfMemory)?;
            }
            return Ok(sigs);
        }
    };
    sigs.map_err(|_| SigFault::OutOfMemory)
}

/// The parts of each type, or the fault.
type Wanted = Result<&'static [&'static [SigPart]], SigFault>;

fn is_as(found: &Result<Vec<Sig>, SigFault>, wanted: &Wanted) -> bool {
    match (found, wanted) {
        (Ok(sigs), Ok(wanted)) => are_as(sigs, wanted),
        (Err(fault), Err(wanted)) => fault == wanted,
        _ => false,
    }
}

fn are_as(sigs: &[Sig], wanted: &[&[SigPart]]) -> bool {
    for (sig, wanted) in sigs.iter().zip(wanted) {
        if sig.parts() != *wanted {
            return false;
        }
    }
    sigs.len() == wanted.len()
}

/// Blobs, and what they read as.
static BLOBS: [(Kind, &[u8], Wanted); 36] = [
    (Kind::Field, b"\x06\x08", Ok(&[&[INT32]])),
    (
        Kind::Field,
        b"\x06\x1F\x05\x20\x80\x09\x08",
        Ok(&[&[INT32]]),
    ),
    (Kind::Field, b"\x06\x08\x08", Err(SigFault::Bad { at: 2 })),
    (
        Kind::Method,
        b"\x00\x02\x08\x08\x0E",
        Ok(&[&[INT32], &[INT32], &[TEXT]]),
    ),
    (Kind::Method, b"\x20\x00\x01", Ok(&[])),
    (Kind::Method, b"\x00\x00\x1F\x05\x01", Ok(&[])),
    (Kind::Method, b"\x06\x08", Err(SigFault::Bad { at: 0 })),
    (Kind::Method, b"\x60\x00\x01", Err(SigFault::Bad { at: 0 })),
    (
        Kind::Method,
        b"\x00\x02\x08\x08",
        Err(SigFault::Bad { at: 4 }),
    ),
    (
        Kind::Method,
        b"\x00\x01\x08\x08\x0E",
        Err(SigFault::Bad { at: 4 }),
    ),
    (
        Kind::Method,
        b"\x00\x01\x08\x01",
        Err(SigFault::Bad { at: 3 }),
    ),
    (
        Kind::Method,
        b"\x30\x01",
        Err(SigFault::Feature {
            feature: Feature::GenericMethod,
        }),
    ),
    (
        Kind::Method,
        b"\x25",
        Err(SigFault::Feature {
            feature: Feature::Varargs,
        }),
    ),
    (
        Kind::Method,
        b"\x00\x02\x0D\x17",
        Err(SigFault::Feature {
            feature: Feature::Float,
        }),
    ),
    (Kind::Locals, b"\x07\x01\x08", Ok(&[&[INT32]])),
    (Kind::Locals, b"\x07\x02\x0E\x08", Ok(&[&[TEXT], &[INT32]])),
    (Kind::Locals, b"\x07\x00", Ok(&[])),
    (
        Kind::Locals,
        b"\x07\x01\x45\x08",
        Err(SigFault::Feature {
            feature: Feature::Pointer,
        }),
    ),
    (Kind::Type, b"\x1D\x08", Ok(&[&[SigPart::Vector, INT32]])),
    (
        Kind::Type,
        b"\x12\xC0\x00\x40\x01",
        Ok(&[&[SigPart::Class(16_385)]]),
    ),
    (Kind::Type, b"\x13\x80\x80", Ok(&[&[SigPart::Var(128)]])),
    (
        Kind::Type,
        b"\x15\x12\x08\x02\x20\x05\x12\x0C\x1C",
        Ok(&[&[
            SigPart::Inst { class: 8, args: 2 },
            SigPart::Class(12),
            SigPart::Prim(Prim::Object),
        ]]),
    ),
    (Kind::Type, b"\x12\xE0", Err(SigFault::Bad { at: 1 })),
    (Kind::Type, b"\x12\x80", Err(SigFault::Bad { at: 2 })),
    (
        Kind::Type,
        b"\x12\x80\x07\x08",
        Err(SigFault::Bad { at: 2 }),
    ),
    (Kind::Type, b"\x1F\x07\x08", Err(SigFault::Bad { at: 1 })),
    (Kind::Type, b"", Err(SigFault::Bad { at: 0 })),
    (Kind::Type, b"\x1D\x1D", Err(SigFault::Bad { at: 2 })),
    (
        Kind::Type,
        b"\x15\x12\x08\x02\x08",
        Err(SigFault::Bad { at: 5 }),
    ),
    (Kind::Type, b"\x1D\x01", Err(SigFault::Bad { at: 1 })),
    (Kind::Type, b"\x17", Err(SigFault::Bad { at: 0 })),
    (Kind::Type, b"\x15\x08", Err(SigFault::Bad { at: 1 })),
    (
        Kind::Type,
        b"\x15\x11",
        Err(SigFault::Feature {
            feature: Feature::ValueType,
        }),
    ),
    (
        Kind::Type,
        b"\x14",
        Err(SigFault::Feature {
            feature: Feature::ArrayShape,
        }),
    ),
    (
        Kind::Type,
        b"\x1E",
        Err(SigFault::Feature {
            feature: Feature::GenericMethod,
        }),
    ),
    (
        Kind::Type,
        b"\x1D\x0C\xFF",
        Err(SigFault::Feature {
            feature: Feature::Float,
        }),
    ),
];

#[test]
fn reads_blobs(rt: HostRuntime) -> Result<(), Fail> {
    for (n, (kind, bytes, wanted)) in BLOBS.iter().enumerate() {
        let found = read(rt.alloc(), *kind, bytes);
        assert!(rt; is_as(&found, wanted), "row {n}");
    }
    let whole = method_sig(rt.alloc(), b"\x20\x01\x01\x0E", Span { at: 0, len: 4 })?;
    assert!(rt; whole.has_this && whole.result.is_none());
    Ok(())
}

/// How many parts the type of a blob has, of how many types it is made, and how many parts the
/// first of these has.
fn lens(alloc: Global, bytes: &[u8]) -> Result<[usize; 3], Fail> {
    let sig = type_sig(alloc, bytes, all_of(bytes))?;
    let made_of = sig.made_of(alloc)?;
    let first = made_of.first().map_or(0, |sig| sig.parts().len());
    Ok([sig.parts().len(), made_of.len(), first])
}

#[test]
fn reads_deep_types(rt: HostRuntime) -> Result<(), Fail> {
    let mut deep = vec![in rt.alloc(); 0x1D; 65_536]?;
    let cut = type_sig(rt.alloc(), &deep, all_of(&deep)).err();
    assert!(rt; cut == Some(SigFault::Bad { at: 65_536 }));
    if let Some(last) = deep.last_mut() {
        *last = 0x08;
    }
    assert!(rt; lens(rt.alloc(), &deep)? == [65_536, 1, 65_535]);
    Ok(())
}

#[test]
fn reads_many_parameters(rt: HostRuntime) -> Result<(), Fail> {
    let mut method = b"\x00\x64".to_vec(rt.alloc())?;
    method.resize(103, 0x08)?;
    let sig = method_sig(rt.alloc(), &method, all_of(&method))?;
    assert!(rt; sig.params.items().len() == 100);
    Ok(())
}

/// Row 2 of assembly 1.
const PAIR: KeyPart = KeyPart::Class {
    assembly: 1,
    row: 2,
    args: 0,
};

const KEY_OF_INT32: KeyPart = KeyPart::Prim(Prim::Int32);

fn key(alloc: Global, parts: &[KeyPart]) -> Result<TypeKey, AllocError>
    requires { IsTypeKey parts.now }
    ensures { IfOk result (λ key. key ≡ parts.now) }
{
    TypeKey::of(alloc, Key::of(Vec::from_slice(alloc, parts)?))
}

/// Row 2 of assembly 1 with two arguments: itself without arguments, and an array of int32.
const PAIR_OF_TWO: [KeyPart; 4] = [
    KeyPart::Class {
        assembly: 1,
        row: 2,
        args: 2,
    },
    PAIR,
    KeyPart::Vector,
    KEY_OF_INT32,
];

fn is_pair(found: &Result<TypeKey, KeyFault>) -> bool {
    match found {
        Ok(found) => found.key().parts() == PAIR_OF_TWO.as_slice(),
        Err(_) => false,
    }
}

fn lacks(found: &Result<TypeKey, KeyFault>) -> bool {
    match found {
        Ok(_) => false,
        Err(fault) => *fault == KeyFault::Index,
    }
}

#[test]
fn replaces_classes_and_variables(rt: HostRuntime) -> Result<(), Fail> {
    let classes = [(8, key(rt.alloc(), &[PAIR])?)];
    let args = [key(rt.alloc(), &[KEY_OF_INT32])?];
    let sig = Sig::of(vec![in rt.alloc();
        SigPart::Inst { class: 8, args: 2 },
        SigPart::Class(8),
        SigPart::Vector,
        SigPart::Var(0),
    ]?);
    let none: [TypeKey; 0] = [];
    assert!(rt; lacks(&substitute(rt.alloc(), &sig, &classes, &none)));
    assert!(rt; is_pair(&substitute(rt.alloc(), &sig, &classes, &args)));
    Ok(())
}

#[test]
fn tells_what_keys_are_made_of(rt: HostRuntime) -> Result<(), Fail> {
    let pair = key(rt.alloc(), &PAIR_OF_TWO)?;
    assert!(rt; pair.element(rt.alloc())?.is_none());
    let keys = pair.made_of(rt.alloc())?;
    assert!(rt; keys.len() == 2);
    assert!(rt; keys[0].key().parts() == [PAIR].as_slice() && keys[0] != keys[1]);
    let element = keys[1].element(rt.alloc())?;
    assert!(rt; element == Some(key(rt.alloc(), &[KEY_OF_INT32])?));
    Ok(())
}

#[test]
fn bounds_keys(rt: HostRuntime) -> Result<(), Fail> {
    let vector = Sig::of(vec![in rt.alloc(); SigPart::Vector, SigPart::Var(0)]?);
    let twice = Sig::of(vec![in rt.alloc();
        SigPart::Inst { class: 8, args: 2 },
        SigPart::Var(0),
        SigPart::Var(0),
    ]?);
    let classes = [(8, key(rt.alloc(), &[PAIR])?)];
    // how often each is made, how many nodes the last key has that is made, and what is too deep
    for (sig, times, nodes) in [(&vector, 15, 16), (&twice, 7, 255)] {
        let mut args = [key(rt.alloc(), &[KEY_OF_INT32])?];
        for _ in 0..times {
            args = [substitute(rt.alloc(), sig, &classes, &args)?];
        }
        assert!(rt; args[0].key().parts().len() == nodes);
        let deep = substitute(rt.alloc(), sig, &classes, &args).err();
        assert!(rt; deep == Some(KeyFault::Deep));
    }
    Ok(())
}

#[test]
fn shares_across_threads(rt: HostRuntime) -> Result<(), Fail> {
    let pair = key(rt.alloc(), &[PAIR])?;
    let moved = pair.share(rt.alloc())?;
    let (theirs, ours) = thread::join(
        &rt,
        move || moved.key().parts().len(),
        || pair.key().parts().len(),
    );
    assert!(rt; theirs == 1 && ours == 1);
    Ok(())
}

#[test]
fn names_features(rt: HostRuntime) {
    assert!(rt; Feature::MultiModule.text() == b"multi-module".as_slice());
    assert!(rt; Feature::of_text(b"value-type") == Some(Feature::ValueType));
    assert!(rt; Feature::of_text(b"Float").is_none());
}
