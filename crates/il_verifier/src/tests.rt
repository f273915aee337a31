ghost use Rattle.std.specs.Prelude.{◌≡◌, ℕ, List, ◌<◌, ◌-◌, ◌^◌, length, IfOk};
ghost use Rattle.il_reader.specs.Offsets.{AreBoundaries};

use crate::facts::{BodyFacts, MethodFacts, Use};
use crate::keys::prim_key;
use crate::verdict::typed_or_fault;
use cli_words::Listed;
use host_events::VerifyRule;
use il_flow::Parents;
use il_reader::boundaries;
use signatures::{Prim, TypeKey};
use std::alloc::{AllocError, Global};
use std::test::Fail;

/// Nothing stands above a type.
struct Sample;

impl Parents for Sample {
    ghost use Rattle.il_verifier.specs.Samples.{sample, sample_lawful};

    ghost family = { λ _. sample };

    fn parent(&self, _alloc: Global, _key: &TypeKey) -> Result<Option<TypeKey>, AllocError> {
        Ok(None)
    }

    fn interface(
        &self,
        _alloc: Global,
        _key: &TypeKey,
        _n: u32,
    ) -> Result<Option<TypeKey>, AllocError> {
        Ok(None)
    }

    ghost lawful = { λ _. sample_lawful };
}

/// A static method that takes an int32 and gives one.
fn called(alloc: Global) -> Result<Use, AllocError> {
    let param = prim_key(alloc, Prim::Int32)?;
    Ok(Use::OfMethod(MethodFacts {
        owner: prim_key(alloc, Prim::Object)?,
        is_static: true,
        has_this: false,
        makes: false,
        params: Listed::of(vec![in alloc; param]?),
        result: Some(prim_key(alloc, Prim::Int32)?),
    }))
}

/// What is named at each of so many bytes: such a method at each call.
fn uses(alloc: Global, code: &[u8]) -> Result<Vec<Use>, AllocError>
    ensures { IfOk result (λ uses. length uses.items ≡ length code.now) }
{
    let mut uses = Vec::new(alloc);
    for byte in code {
        uses.push(named(alloc, *byte)?)?;
    }
    Ok(uses)
}

fn named(alloc: Global, byte: u8) -> Result<Use, AllocError> {
    match byte {
        0x28 => called(alloc),
        _ => Ok(Use::Plain),
    }
}

/// A static method of two int32 that gives one, with eight values on the stack at most.
fn method(alloc: Global, code: &[u8], max_stack: u16) -> Result<BodyFacts, AllocError>
    ensures { IfOk result (λ facts. facts.code ≡ code.now) }
{
    let args = vec![in alloc;
        prim_key(alloc, Prim::Int32)?,
        prim_key(alloc, Prim::Int32)?,
    ]?;
    let result = Some(prim_key(alloc, Prim::Int32)?);
    let uses = uses(alloc, code)?;
    Ok(BodyFacts {
        code: Listed::of(Vec::from_slice(alloc, code)?),
        max_stack,
        init_locals: false,
        args: Listed::of(args),
        locals: Listed::of(Vec::new(alloc)),
        result,
        uses: Listed::of(uses),
    })
}

#[test]
fn tells_the_first_fault(rt: HostRuntime) -> Result<(), Fail> {
    let rows: [(&[u8], u16, Option<(usize, VerifyRule)>); 15] = [
        // an operand is missing
        (
            b"\x14\x17\x58\x26\x26\x2A",
            8,
            Some((4, VerifyRule::Underflow)),
        ),
        // null and a number
        (b"\x14\x17\x58\x2A", 8, Some((2, VerifyRule::Operand))),
        // a number and null meet
        (
            b"\x17\x2D\x03\x16\x2B\x01\x14\x2A",
            8,
            Some((7, VerifyRule::Kind)),
        ),
        // two depths meet
        (b"\x17\x17\x2D\x01\x18\x2A", 8, Some((5, VerifyRule::Depth))),
        // control leaves the code
        (b"\x17", 8, Some((0, VerifyRule::Target))),
        (b"", 8, Some((0, VerifyRule::Target))),
        // nothing is given back
        (b"\x2A", 8, Some((0, VerifyRule::Return))),
        (b"\x26\x2A", 8, Some((0, VerifyRule::Underflow))),
        // loops
        (b"\x2B\xFE", 8, None),
        (b"\x17\x2D\xFD\x16\x2A", 8, None),
        // a sum of two arguments
        (b"\x02\x03\x58\x2A", 8, None),
        // a number of 32 bits and a native one meet
        (
            b"\x17\x2D\x03\x16\x2B\x02\x17\xD3\x2A",
            8,
            Some((8, VerifyRule::Kind)),
        ),
        // a number of 64 bits for one of 32
        (
            b"\x17\x6A\x28\x01\x00\x00\x06\x2A",
            8,
            Some((2, VerifyRule::Assign)),
        ),
        (b"\x06\x2A", 8, Some((0, VerifyRule::Index))),
        (b"\x16\x2A", 0, Some((0, VerifyRule::MaxStack))),
    ];
    for (code, max_stack, wanted) in rows {
        boundaries(rt.alloc(), code)?;
        let facts = method(rt.alloc(), code, max_stack)?;
        assert!(rt; typed_or_fault(rt.alloc(), &Sample, &facts)? == wanted);
    }
    Ok(())
}
