// Outcomes, read.
ghost use Rattle.std.specs.Prelude.{◌≡◌};
ghost use Rattle.host_report.specs.OutcomeReading.{assembly_outcome, bad_image_read, check_named};
ghost use Rattle.host_report.specs.OutcomeReading.{given_read, one_text, or_else, outcome_read};
ghost use Rattle.host_report.specs.OutcomeReading.{plain_outcome, replied_read, rule_named};
ghost use Rattle.host_report.specs.OutcomeReading.{unsupported_read, verify_fault_read, version_low_read};
ghost use Rattle.host_report.specs.Printable.{ends_command};
ghost use Rattle.host_report.specs.Reading.{Reads};

use crate::event_reading::{simple_name, value};
use crate::outcome::rule_word;
use crate::reply_reading::{keyword, reply};
use crate::text_reading::text;
use crate::unread::Unread;
use crate::words::{number, token, version, word};
use cli_words::{CheckCode, FailedCheck};
use host_events::{Datum, Outcome, Reply, VerifyRule};
use signatures::Feature;
use std::alloc::Global;

// Each check once.
const CHECKS: [CheckCode; 18] = [
    CheckCode::Cut,
    CheckCode::NoMz,
    CheckCode::NoPe,
    CheckCode::Magic,
    CheckCode::NoCli,
    CheckCode::Outside,
    CheckCode::NotIlOnly,
    CheckCode::RootSignature,
    CheckCode::Bounds,
    CheckCode::EditStream,
    CheckCode::NoTables,
    CheckCode::Table,
    CheckCode::Index,
    CheckCode::List,
    CheckCode::Text,
    CheckCode::NoAssembly,
    CheckCode::TooLong,
    CheckCode::Absent,
];

// Each rule once.
const RULES: [VerifyRule; 11] = [
    VerifyRule::Depth,
    VerifyRule::Kind,
    VerifyRule::Underflow,
    VerifyRule::Operand,
    VerifyRule::MaxStack,
    VerifyRule::Index,
    VerifyRule::Target,
    VerifyRule::Assign,
    VerifyRule::Member,
    VerifyRule::Return,
    VerifyRule::Region,
];

/// An outcome, which ends with the line.
#[tactic(auto, unfolding(crate::specs::OutcomeReading::outcome_read))]
pub(crate) fn outcome(alloc: Global, line: &[u8]) -> Result<Outcome, Unread>
    ensures { Reads (λ outcome. outcome) result (outcome_read line.now) }
{
    let (name, rest) = keyword(line)?;
    match name {
        "Value" => given(alloc, rest),
        "VersionLow" => version_low(alloc, rest),
        "BadImage" => bad_image(rest),
        "Unsupported" => unsupported(rest),
        "VerifyFault" => verify_fault(rest),
        _ => of_assembly(alloc, line, name, rest),
    }
}

// An outcome of one number, token or name, or another one.
fn of_assembly(alloc: Global, line: &[u8], name: &str, rest: &[u8]) -> Result<Outcome, Unread>
    ensures { Reads (λ outcome. outcome) result (assembly_outcome line.now name.now rest.now) }
{
    match name {
        "BadMember" => Ok(Outcome::BadMember(token(rest)?.0)),
        "Assembly" => Ok(Outcome::Assembly(number(rest)?.0)),
        "NotCollectible" => Ok(Outcome::NotCollectible(number(rest)?.0)),
        "NotFound" => Ok(Outcome::NotFound(simple_name(alloc, rest)?.0)),
        "NameMismatch" => Ok(Outcome::NameMismatch(simple_name(alloc, rest)?.0)),
        _ => of_text(alloc, line, name, rest),
    }
}

// An outcome of one text, or another one.
fn of_text(alloc: Global, line: &[u8], name: &str, rest: &[u8]) -> Result<Outcome, Unread>
    ensures { Reads (λ outcome. outcome) result (one_text line.now name.now rest.now) }
{
    match name {
        "NoType" => Ok(Outcome::NoType(text(alloc, rest)?.0)),
        "NoMethod" => Ok(Outcome::NoMethod(text(alloc, rest)?.0)),
        "NoField" => Ok(Outcome::NoField(text(alloc, rest)?.0)),
        "Ambiguous" => Ok(Outcome::Ambiguous(text(alloc, rest)?.0)),
        "Threw" => Ok(Outcome::Threw(text(alloc, rest)?.0)),
        _ => plain(alloc, line, name),
    }
}

// An outcome that is a word, or a reply.
fn plain(alloc: Global, line: &[u8], name: &str) -> Result<Outcome, Unread>
    ensures { Reads (λ outcome. outcome) result
        (or_else (plain_outcome name.now) (replied_read line.now)) }
{
    match name {
        "Void" => Ok(Outcome::Void),
        "Budget" => Ok(Outcome::Budget),
        "EventLimit" => Ok(Outcome::EventLimit),
        "Depth" => Ok(Outcome::Depth),
        "HeapFull" => Ok(Outcome::HeapFull),
        "TypeDepth" => Ok(Outcome::TypeDepth),
        "StaticLong" => Ok(Outcome::StaticLong),
        _ => replied(alloc, line),
    }
}

fn replied(alloc: Global, line: &[u8]) -> Result<Outcome, Unread>
    ensures { Reads (λ outcome. outcome) result (replied_read line.now) }
{
    let reply = reply(alloc, line)?;
    if ends_command(&reply) {
        Ok(Outcome::Replied(reply))
    } else {
        Err(Unread::Differs)
    }
}

// A test of whether a command can end with the reply.
fn ends_command(reply: &Reply) -> bool
    ensures { result ≡ ends_command reply.now }
{
    match reply {
        Reply::Exists(_)
        | Reply::Made(_)
        | Reply::NoContext
        | Reply::Unloading(_)
        | Reply::Set(_)
        | Reply::NoHandle
        | Reply::InUse
        | Reply::Held(_)
        | Reply::Dropped
        | Reply::Weakly(_)
        | Reply::Alive(_)
        | Reply::Gone(_)
        | Reply::Fixed(_)
        | Reply::Already(_)
        | Reply::Freed(_) => true,
        _ => false,
    }
}

// What a method gave back.
fn given(alloc: Global, rest: &[u8]) -> Result<Outcome, Unread>
    ensures { Reads (λ outcome. outcome) result (given_read rest.now) }
{
    if rest == b"ref".as_slice() {
        return Ok(Outcome::Value(Datum::Ref));
    }
    let (value, _) = value(alloc, rest)?;
    Ok(Outcome::Value(value))
}

fn version_low(alloc: Global, rest: &[u8]) -> Result<Outcome, Unread>
    ensures { Reads (λ outcome. outcome) result (version_low_read rest.now) }
{
    let (name, rest) = simple_name(alloc, rest)?;
    let (version, _) = version(rest)?;
    Ok(Outcome::VersionLow(name, version))
}

fn bad_image(rest: &[u8]) -> Result<Outcome, Unread>
    ensures { Reads (λ outcome. outcome) result (bad_image_read rest.now) }
{
    let (name, rest) = keyword(rest)?;
    let Some(code) = check_named(name) else {
        return Err(Unread::Differs);
    };
    let (at, _) = number(rest)?;
    Ok(Outcome::BadImage(FailedCheck { code, at }))
}

fn check_named(name: &str) -> Option<CheckCode>
    ensures { result ≡ check_named name.now }
{
    CHECKS.iter().copied().find(|code| code.name() == name)
}

fn unsupported(rest: &[u8]) -> Result<Outcome, Unread>
    ensures { Reads (λ outcome. outcome) result (unsupported_read rest.now) }
{
    let (name, _) = word(rest);
    match Feature::of_text(name) {
        Some(feature) => Ok(Outcome::Unsupported(feature)),
        None => Err(Unread::Differs),
    }
}

fn verify_fault(rest: &[u8]) -> Result<Outcome, Unread>
    ensures { Reads (λ outcome. outcome) result (verify_fault_read rest.now) }
{
    let (token, rest) = token(rest)?;
    let (at, rest) = number(rest)?;
    let (name, _) = keyword(rest)?;
    match rule_named(name.as_bytes()) {
        Some(rule) => Ok(Outcome::VerifyFault { token, at, rule }),
        None => Err(Unread::Differs),
    }
}

fn rule_named(name: &[u8]) -> Option<VerifyRule>
    ensures { result ≡ rule_named name.now }
{
    RULES.iter().copied().find(|rule| rule_word(*rule) == name)
}
