// Replies, read.
ghost use Rattle.std.specs.Prelude.{◌≡◌, [], ◌∷◌};
ghost use Rattle.host_events.specs.Reserved.{sealed};
ghost use Rattle.host_report.specs.Keyword.{beside, keyword_read};
ghost use Rattle.host_report.specs.Reading.{Reads};
ghost use Rattle.host_report.specs.ReplyReading.{numbered_reply, numbers_read, plain_replies, reply_of_one};
ghost use Rattle.host_report.specs.ReplyReading.{reply_read, scalar, value_read};

use crate::text_reading::units;
use crate::unread::Unread;
use crate::words::{int, long, number, word};
use host_events::{Datum, Numbers, Reply, Text};
use std::alloc::Global;
use std::str;

/// The word at the front, where it is text, and what stands behind the space that follows it.
pub(crate) fn keyword(rest: &[u8]) -> Result<(&str, &[u8]), Unread>
    ensures { Reads (λ x. (x.0.now, x.1.now)) result (keyword_read rest.now) }
{
    let (bytes, rest) = word(rest);
    match str::from_utf8(bytes) {
        Ok(name) => Ok((name, rest)),
        Err(_) => Err(Unread::Differs),
    }
}

/// A reply, which ends with the line.
#[tactic(auto, unfolding(crate::specs::ReplyReading::reply_read))]
pub(crate) fn reply(alloc: Global, rest: &[u8]) -> Result<Reply, Unread>
    ensures { Reads (λ reply. reply) result (reply_read rest.now) }
{
    let (name, rest) = keyword(rest)?;
    match name {
        "Value" => Ok(Reply::Value(text_value(alloc, rest)?.0)),
        "Freed" => Ok(Reply::Freed(Numbers::of(numbers(alloc, rest)?))),
        _ => {
            let numbers = numbers(alloc, rest)?;
            numbered(name, &numbers)
        }
    }
}

// A reply that is its name and a known count of numbers.
fn numbered(name: &str, numbers: &[u32]) -> Result<Reply, Unread>
    ensures { Reads (λ reply. reply) result (numbered_reply name.now numbers.now) }
{
    match numbers {
        [] => plain(name),
        [number] => of_number(name, *number),
        [operation, context] => entered(name, *operation, *context),
        [operation, context, assembly, method] => {
            entered_at(name, *operation, *context, *assembly, *method)
        }
        _ => Err(Unread::Differs),
    }
}

fn entered(name: &str, operation: u32, context: u32) -> Result<Reply, Unread>
    ensures { Reads (λ reply. reply) result (numbered_reply name.now (operation ∷ context ∷ [])) }
{
    if name != "Entered" {
        return Err(Unread::Differs);
    }
    Ok(Reply::Entered(operation, context))
}

fn entered_at(
    name: &str,
    operation: u32,
    context: u32,
    assembly: u32,
    method: u32,
) -> Result<Reply, Unread>
    ensures { Reads (λ reply. reply) result
        (numbered_reply name.now (operation ∷ context ∷ assembly ∷ method ∷ [])) }
{
    if name != "EnteredAt" {
        return Err(Unread::Differs);
    }
    Ok(Reply::EnteredAt(operation, context, assembly, method))
}

// A reply that is its name alone.
fn plain(name: &str) -> Result<Reply, Unread>
    ensures { Reads (λ reply. reply) result (beside name.now plain_replies) }
{
    match name {
        "NoContext" => Ok(Reply::NoContext),
        "NoHandle" => Ok(Reply::NoHandle),
        "Miss" => Ok(Reply::Miss),
        "Nothing" => Ok(Reply::Nothing),
        "Stored" => Ok(Reply::Stored),
        "InUse" => Ok(Reply::InUse),
        "Dropped" => Ok(Reply::Dropped),
        "Left" => Ok(Reply::Left),
        _ => Err(Unread::Differs),
    }
}

// A reply that is its name and a number.
fn of_number(name: &str, number: u32) -> Result<Reply, Unread>
    ensures { Reads (λ reply. reply) result (reply_of_one name.now number) }
{
    match name {
        "Exists" => Ok(Reply::Exists(number)),
        "Made" => Ok(Reply::Made(number)),
        "Unloading" => Ok(Reply::Unloading(number)),
        "Set" => Ok(Reply::Set(number)),
        "Hit" => Ok(Reply::Hit(number)),
        "Low" => Ok(Reply::Low(number)),
        "Image" => Ok(Reply::Image(number)),
        "Foreign" => Ok(Reply::Foreign(number)),
        "Lost" => Ok(Reply::Lost(number)),
        "NotCollectible" => Ok(Reply::NotCollectible(number)),
        "Shared" => Ok(Reply::Shared(number)),
        "Bound" => Ok(Reply::Bound(number)),
        "Placed" => Ok(Reply::Placed(number)),
        "Held" => Ok(Reply::Held(number)),
        "Weakly" => Ok(Reply::Weakly(number)),
        "Alive" => Ok(Reply::Alive(number)),
        "Gone" => Ok(Reply::Gone(number)),
        "Fixed" => Ok(Reply::Fixed(number)),
        "Already" => Ok(Reply::Already(number)),
        _ => Err(Unread::Differs),
    }
}

// The numbers up to the line's end.
#[tactic(auto, using(crate::proofs::ReplyReadingLemmas::numbers_missed))]
fn numbers(alloc: Global, text: &[u8]) -> Result<Vec<u32>, Unread>
    ensures { Reads (λ numbers. numbers.items) result (numbers_read text.now) }
{
    let mut numbers = Vec::new(alloc);
    let mut rest = text;
    while !rest.is_empty() {
        let (next, after) = number(rest)?;
        numbers.push(next)?;
        rest = after;
    }
    Ok(numbers)
}

// A value: a number, a text or null. It is never a reference, since no reply gives one.
fn text_value(alloc: Global, rest: &[u8]) -> Result<(Datum<Text>, &[u8]), Unread>
    ensures { Reads (λ x. (x.0, x.1.now)) result (value_read sealed rest.now) }
{
    let (kind, rest) = keyword(rest)?;
    match kind {
        "s" => {
            let (units, rest) = units(alloc, rest)?;
            Ok((Datum::S(Text::of(units)), rest))
        }
        _ => scalar(kind, rest),
    }
}

/// A number or null, of which the kind was read.
pub(crate) fn scalar<'a, T: Drop>(
    kind: &str,
    rest: &'a [u8],
) -> Result<(Datum<T>, &'a [u8]), Unread>
    ensures { Reads (λ x. (x.0, x.1.now)) result (scalar kind.now rest.now) }
{
    match kind {
        "i4" => {
            let (number, rest) = int(rest)?;
            Ok((Datum::I4(number), rest))
        }
        "i8" => {
            let (number, rest) = long(rest)?;
            Ok((Datum::I8(number), rest))
        }
        "n" => {
            let (number, rest) = long(rest)?;
            Ok((Datum::N(number), rest))
        }
        "null" => Ok((Datum::Null, rest)),
        _ => Err(Unread::Differs),
    }
}
