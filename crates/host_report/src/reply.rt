// The texts of replies.
ghost use Rattle.std.specs.Prelude.{◌≡◌};
ghost use Rattle.host_report.specs.Fields.{fields_text, front_text};
ghost use Rattle.host_report.specs.ReplyParts.{one_number, reply_number, reply_rest, reply_word};
ghost use Rattle.host_report.specs.Table.{reply_fields};
ghost use Rattle.host_report.specs.Line.{Puts};

use crate::field::{put_decimal, put_numbers};
use crate::line::{Line, put};
use crate::value::put_text_value;
use host_events::Reply;
use plug_io::Sink;

/// Puts a reply.
pub(crate) fn put_reply<S: Sink>(line: &mut Line, out: &mut S, reply: &Reply)
    ensures { Puts S.written S.faults line.old out.old line.new out.new
        (front_text (reply_fields reply.now)) }
{
    put(line, out, word(reply));
    put_rest(line, out, reply);
}

// Puts what stands behind the word of a reply.
fn put_rest<S: Sink>(line: &mut Line, out: &mut S, reply: &Reply)
    ensures { Puts S.written S.faults line.old out.old line.new out.new
        (fields_text (reply_rest reply.now)) }
{
    match reply {
        Reply::Value(value) => put_text_value(line, out, value),
        Reply::Freed(contexts) => put_numbers(line, out, contexts.numbers()),
        Reply::Entered(operation, context) => put_numbers(line, out, &[*operation, *context]),
        Reply::EnteredAt(operation, context, assembly, method) => {
            put_numbers(line, out, &[*operation, *context, *assembly, *method])
        }
        _ => put_one(line, out, number(reply)),
    }
}

fn put_one<S: Sink>(line: &mut Line, out: &mut S, number: Option<u32>)
    ensures { Puts S.written S.faults line.old out.old line.new out.new
        (fields_text (one_number number)) }
{
    if let Some(number) = number {
        put_decimal(line, out, number);
    }
}

// The word that a reply begins with.
fn word(reply: &Reply) -> &'static [u8]
    ensures { result.now ≡ reply_word reply.now }
{
    match reply {
        Reply::Exists(_) => b"Exists",
        Reply::Made(_) => b"Made",
        Reply::NoContext => b"NoContext",
        Reply::Unloading(_) => b"Unloading",
        Reply::Set(_) => b"Set",
        Reply::Entered(..) => b"Entered",
        Reply::NoHandle => b"NoHandle",
        Reply::EnteredAt(..) => b"EnteredAt",
        Reply::Miss => b"Miss",
        Reply::Hit(_) => b"Hit",
        Reply::Low(_) => b"Low",
        Reply::Image(_) => b"Image",
        Reply::Foreign(_) => b"Foreign",
        Reply::Nothing => b"Nothing",
        Reply::Lost(_) => b"Lost",
        Reply::NotCollectible(_) => b"NotCollectible",
        Reply::Shared(_) => b"Shared",
        Reply::Bound(_) => b"Bound",
        Reply::Placed(_) => b"Placed",
        Reply::Value(_) => b"Value",
        Reply::Stored => b"Stored",
        Reply::InUse => b"InUse",
        Reply::Held(_) => b"Held",
        Reply::Dropped => b"Dropped",
        Reply::Weakly(_) => b"Weakly",
        Reply::Alive(_) => b"Alive",
        Reply::Gone(_) => b"Gone",
        Reply::Fixed(_) => b"Fixed",
        Reply::Already(_) => b"Already",
        Reply::Freed(_) => b"Freed",
        Reply::Left => b"Left",
    }
}

// The number of a reply that has just one.
fn number(reply: &Reply) -> Option<u32>
    ensures { result ≡ reply_number reply.now }
{
    match reply {
        Reply::Exists(number) => Some(*number),
        Reply::Made(number) => Some(*number),
        Reply::Unloading(number) => Some(*number),
        Reply::Set(number) => Some(*number),
        Reply::Hit(number) => Some(*number),
        Reply::Low(number) => Some(*number),
        Reply::Image(number) => Some(*number),
        Reply::Foreign(number) => Some(*number),
        Reply::Lost(number) => Some(*number),
        Reply::NotCollectible(number) => Some(*number),
        Reply::Shared(number) => Some(*number),
        Reply::Bound(number) => Some(*number),
        Reply::Placed(number) => Some(*number),
        Reply::Held(number) => Some(*number),
        Reply::Weakly(number) => Some(*number),
        Reply::Alive(number) => Some(*number),
        Reply::Gone(number) => Some(*number),
        Reply::Fixed(number) => Some(*number),
        Reply::Already(number) => Some(*number),
        _ => None,
    }
}
