// The texts of outcomes.
ghost use Rattle.std.specs.Prelude.{◌≡◌};
ghost use Rattle.host_report.specs.Fields.{Field, field_text, fields_text, front_text};
ghost use Rattle.host_report.specs.OutcomeParts.{operand, outcome_rest, outcome_word};
ghost use Rattle.host_report.specs.Table.{outcome_fields, rule_word};
ghost use Rattle.host_report.specs.Line.{Puts};

use crate::field::{put_decimal, put_simple_name, put_string, put_token, put_version, put_word};
use crate::line::{Line, put};
use crate::reply::put_reply;
use crate::value::put_units_value;
use assembly_name::{SimpleName, Version};
use cli_words::{FailedCheck, Units};
use host_events::{Outcome, VerifyRule};
use plug_io::Sink;

/// Puts an outcome.
pub(crate) fn put_outcome<S: Sink>(line: &mut Line, out: &mut S, outcome: &Outcome)
    ensures { Puts S.written S.faults line.old out.old line.new out.new
        (front_text (outcome_fields outcome.now)) }
{
    put(line, out, word(outcome));
    put_rest(line, out, outcome);
}

// Puts what stands behind the word of an outcome.
fn put_rest<S: Sink>(line: &mut Line, out: &mut S, outcome: &Outcome)
    ensures { Puts S.written S.faults line.old out.old line.new out.new
        (outcome_rest outcome.now) }
{
    match outcome {
        Outcome::Replied(reply) => put_reply(line, out, reply),
        Outcome::Value(value) => put_units_value(line, out, value),
        Outcome::VersionLow(name, version) => put_version_low(line, out, name, *version),
        Outcome::BadImage(failed) => put_bad_image(line, out, failed),
        Outcome::BadMember(token) => put_token(line, out, *token),
        Outcome::Unsupported(feature) => put_word(line, out, feature.text()),
        Outcome::VerifyFault { token, at, rule } => {
            put_verify_fault(line, out, *token, *at, *rule)
        }
        _ => put_operand(line, out, outcome),
    }
}

// Puts the number or the text of an outcome that has no more than that.
fn put_operand<S: Sink>(line: &mut Line, out: &mut S, outcome: &Outcome)
    ensures { Puts S.written S.faults line.old out.old line.new out.new
        (fields_text (operand outcome.now)) }
{
    match outcome {
        Outcome::Assembly(assembly) => put_decimal(line, out, *assembly),
        Outcome::NotCollectible(assembly) => put_decimal(line, out, *assembly),
        Outcome::NotFound(name) => put_simple_name(line, out, name),
        Outcome::NameMismatch(name) => put_simple_name(line, out, name),
        Outcome::NoType(name) => put_units(line, out, name),
        Outcome::NoMethod(name) => put_units(line, out, name),
        Outcome::NoField(name) => put_units(line, out, name),
        Outcome::Ambiguous(name) => put_units(line, out, name),
        Outcome::Threw(name) => put_units(line, out, name),
        _ => {}
    }
}

fn put_units<S: Sink>(line: &mut Line, out: &mut S, units: &Units)
    ensures { Puts S.written S.faults line.old out.old line.new out.new
        (field_text (Field.Quoted units.now)) }
{
    put_string(line, out, units.units());
}

fn put_version_low<S: Sink>(line: &mut Line, out: &mut S, name: &SimpleName, version: Version)
    ensures { Puts S.written S.faults line.old out.old line.new out.new
        (outcome_rest (Outcome.VersionLow name.now version)) }
{
    put_simple_name(line, out, name);
    put_version(line, out, version);
}

fn put_bad_image<S: Sink>(line: &mut Line, out: &mut S, failed: &FailedCheck)
    ensures { Puts S.written S.faults line.old out.old line.new out.new
        (outcome_rest (Outcome.BadImage failed.now)) }
{
    put_word(line, out, failed.code.name().as_bytes());
    put_decimal(line, out, failed.at);
}

fn put_verify_fault<S: Sink>(line: &mut Line, out: &mut S, token: u32, at: u32, rule: VerifyRule)
    ensures { Puts S.written S.faults line.old out.old line.new out.new
        (outcome_rest (Outcome.VerifyFault token at rule)) }
{
    put_token(line, out, token);
    put_decimal(line, out, at);
    put_word(line, out, rule_word(rule));
}

// The word that an outcome begins with. A reply has its own.
fn word(outcome: &Outcome) -> &'static [u8]
    ensures { result.now ≡ outcome_word outcome.now }
{
    match outcome {
        Outcome::Replied(_) => b"",
        Outcome::Value(_) => b"Value",
        Outcome::VersionLow(..) => b"VersionLow",
        Outcome::BadImage(_) => b"BadImage",
        Outcome::BadMember(_) => b"BadMember",
        Outcome::Unsupported(_) => b"Unsupported",
        Outcome::VerifyFault { .. } => b"VerifyFault",
        Outcome::Assembly(_) => b"Assembly",
        Outcome::NotCollectible(_) => b"NotCollectible",
        Outcome::NotFound(_) => b"NotFound",
        Outcome::NameMismatch(_) => b"NameMismatch",
        Outcome::NoType(_) => b"NoType",
        Outcome::NoMethod(_) => b"NoMethod",
        Outcome::NoField(_) => b"NoField",
        Outcome::Ambiguous(_) => b"Ambiguous",
        Outcome::Threw(_) => b"Threw",
        Outcome::Void => b"Void",
        Outcome::Budget => b"Budget",
        Outcome::EventLimit => b"EventLimit",
        Outcome::Depth => b"Depth",
        Outcome::HeapFull => b"HeapFull",
        Outcome::TypeDepth => b"TypeDepth",
        Outcome::StaticLong => b"StaticLong",
    }
}

pub(crate) fn rule_word(rule: VerifyRule) -> &'static [u8]
    ensures { result.now ≡ rule_word rule }
{
    match rule {
        VerifyRule::Depth => b"depth",
        VerifyRule::Kind => b"kind",
        VerifyRule::Underflow => b"underflow",
        VerifyRule::Operand => b"operand",
        VerifyRule::MaxStack => b"max-stack",
        VerifyRule::Index => b"index",
        VerifyRule::Target => b"target",
        VerifyRule::Assign => b"assign",
        VerifyRule::Member => b"member",
        VerifyRule::Return => b"return",
        VerifyRule::Region => b"region",
    }
}
