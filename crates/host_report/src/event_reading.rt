// Events, read.
ghost use Rattle.std.specs.Prelude.{◌≡◌};
ghost use Rattle.host_report.specs.EventReading.{answer_read, ask_read, candidate_read};
ghost use Rattle.host_report.specs.EventReading.{event_of_name, event_read};
ghost use Rattle.host_report.specs.EventReading.{hold_read, kind_read, leave_read, load_read};
ghost use Rattle.host_report.specs.EventReading.{lookup_read, new_read};
ghost use Rattle.host_report.specs.EventReading.{of_name_read, one_named, place_read, publish_read};
ghost use Rattle.host_report.specs.EventReading.{rule_of_read};
ghost use Rattle.host_report.specs.EventReading.{rule_read, step_named, store_read};
ghost use Rattle.host_report.specs.EventReading.{value_kind_named, weak_read};
ghost use Rattle.host_report.specs.Reading.{Reads};
ghost use Rattle.host_report.specs.ReplyReading.{value_read};
ghost use Rattle.host_report.specs.TextReading.{units_read};

use crate::key_reading::key;
use crate::reply_reading::{keyword, scalar};
use crate::text_reading::text;
use crate::unread::{Unread, beside};
use crate::words::{name, number, version, word};
use assembly_name::SimpleName;
use cli_words::{Name, Units};
use host_events::{AskStep, Candidate, ContextKind, Datum, Event, RuleAnswer, RuleAt, ValueKind};
use std::alloc::Global;

/// An event, and what stands behind the space that follows it.
#[tactic(auto, unfolding(crate::specs::EventReading::event_read))]
pub(crate) fn event(alloc: Global, rest: &[u8]) -> Result<(Event, &[u8]), Unread>
    ensures { Reads (λ x. (x.0, x.1.now)) result (event_read rest.now) }
{
    let (verb, rest) = keyword(rest)?;
    match verb {
        "new" => new(alloc, rest),
        "on" => on(alloc, rest),
        "resolving" => resolving(alloc, rest),
        "resolve" => rule(alloc, RuleAt::Resolve, rest),
        "lookup" => lookup(alloc, rest),
        "ask" => ask(alloc, rest),
        "publish" => publish(alloc, rest),
        "place" => place(alloc, rest),
        "load-static" => load(alloc, rest),
        "store-static" => store(alloc, rest),
        "hold" => hold(alloc, rest),
        "weak" => weak(alloc, rest),
        "collect" => Ok((Event::Collect, rest)),
        "leave" => leave(rest),
        _ => of_name(alloc, verb, rest),
    }
}

fn new(alloc: Global, rest: &[u8]) -> Result<(Event, &[u8]), Unread>
    ensures { Reads (λ x. (x.0, x.1.now)) result (new_read rest.now) }
{
    let (name, rest) = name(alloc, rest)?;
    let (kind, rest) = context_kind(rest);
    Ok((Event::New { name, kind }, rest))
}

// A context can be unloaded, unless `fixed` comes next.
fn context_kind(rest: &[u8]) -> (ContextKind, &[u8])
    ensures { (result.0, result.1.now) ≡ kind_read rest.now }
{
    let (next, after) = word(rest);
    if next == b"fixed".as_slice() {
        return (ContextKind::Fixed, after);
    }
    (ContextKind::Collectible, rest)
}

// An event that is a verb and a name.
fn of_name<'a>(alloc: Global, verb: &str, rest: &'a [u8]) -> Result<(Event, &'a [u8]), Unread>
    ensures { Reads (λ x. (x.0, x.1.now)) result (of_name_read verb.now rest.now) }
{
    let (name, rest) = name(alloc, rest)?;
    let event = event_of_name(verb, name)?;
    Ok((event, rest))
}

fn event_of_name(verb: &str, name: Name) -> Result<Event, Unread>
    ensures { Reads (λ event. event) result (event_of_name verb.now name) }
{
    match verb {
        "enter" => Ok(Event::Enter { name }),
        "enter-handle" => Ok(Event::EnterHandle { handle: name }),
        "drop" => Ok(Event::DropHandle { handle: name }),
        "alive" => Ok(Event::Alive { handle: name }),
        "unload" => Ok(Event::Unload { name }),
        _ => Err(Unread::Differs),
    }
}

fn on(alloc: Global, rest: &[u8]) -> Result<(Event, &[u8]), Unread>
    ensures { Reads (λ x. (x.0, x.1.now)) result (rule_of_read RuleAt.On rest.now) }
{
    let (context, rest) = name(alloc, rest)?;
    rule(alloc, RuleAt::On(context), rest)
}

fn resolving(alloc: Global, rest: &[u8]) -> Result<(Event, &[u8]), Unread>
    ensures { Reads (λ x. (x.0, x.1.now)) result (rule_of_read RuleAt.Resolving rest.now) }
{
    let (context, rest) = name(alloc, rest)?;
    rule(alloc, RuleAt::Resolving(context), rest)
}

// The rest of a rule, of which it is known where it stands.
fn rule(alloc: Global, place: RuleAt, rest: &[u8]) -> Result<(Event, &[u8]), Unread>
    ensures { Reads (λ x. (x.0, x.1.now)) result (rule_read place rest.now) }
{
    let (place, (name, rest)) = beside(place, simple_name(alloc, rest))?;
    let ((place, name), (answer, rest)) = beside((place, name), answer(alloc, rest))?;
    let event = Event::Rule {
        place,
        name,
        answer,
    };
    Ok((event, rest))
}

/// The simple name of an assembly.
pub(crate) fn simple_name(alloc: Global, rest: &[u8]) -> Result<(SimpleName, &[u8]), Unread>
    ensures { Reads (λ x. (x.0, x.1.now)) result (units_read rest.now) }
{
    let (text, rest) = text(alloc, rest)?;
    Ok((SimpleName::of(text), rest))
}

fn answer(alloc: Global, rest: &[u8]) -> Result<(RuleAnswer, &[u8]), Unread>
    ensures { Reads (λ x. (x.0, x.1.now)) result (answer_read rest.now) }
{
    let (kind, rest) = keyword(rest)?;
    match kind {
        "image" => {
            let (image, rest) = number(rest)?;
            Ok((RuleAnswer::Image(image), rest))
        }
        "share" => {
            let (name, rest) = name(alloc, rest)?;
            Ok((RuleAnswer::Share(name), rest))
        }
        "none" => Ok((RuleAnswer::Nothing, rest)),
        _ => Err(Unread::Differs),
    }
}

fn lookup(alloc: Global, rest: &[u8]) -> Result<(Event, &[u8]), Unread>
    ensures { Reads (λ x. (x.0, x.1.now)) result (lookup_read rest.now) }
{
    let (context, rest) = number(rest)?;
    let (name, rest) = simple_name(alloc, rest)?;
    let (version, rest) = version(rest)?;
    let event = Event::Lookup {
        context,
        name,
        version,
    };
    Ok((event, rest))
}

fn ask(alloc: Global, rest: &[u8]) -> Result<(Event, &[u8]), Unread>
    ensures { Reads (λ x. (x.0, x.1.now)) result (ask_read rest.now) }
{
    let (step, rest) = ask_step(rest)?;
    let (context, rest) = number(rest)?;
    let (name, rest) = simple_name(alloc, rest)?;
    let event = Event::Ask {
        step,
        context,
        name,
    };
    Ok((event, rest))
}

fn ask_step(rest: &[u8]) -> Result<(AskStep, &[u8]), Unread>
    ensures { Reads (λ x. (x.0, x.1.now)) result (one_named step_named rest.now) }
{
    let (step, rest) = keyword(rest)?;
    match step {
        "load" => Ok((AskStep::Load, rest)),
        "default" => Ok((AskStep::Default, rest)),
        "resolving" => Ok((AskStep::Resolving, rest)),
        "resolve" => Ok((AskStep::Resolve, rest)),
        _ => Err(Unread::Differs),
    }
}

fn publish(alloc: Global, rest: &[u8]) -> Result<(Event, &[u8]), Unread>
    ensures { Reads (λ x. (x.0, x.1.now)) result (publish_read rest.now) }
{
    let (context, rest) = number(rest)?;
    let (name, rest) = simple_name(alloc, rest)?;
    let (candidate, rest) = candidate(rest)?;
    let event = Event::Publish {
        context,
        name,
        candidate,
    };
    Ok((event, rest))
}

fn candidate(rest: &[u8]) -> Result<(Candidate, &[u8]), Unread>
    ensures { Reads (λ x. (x.0, x.1.now)) result (candidate_read rest.now) }
{
    let (kind, rest) = keyword(rest)?;
    match kind {
        "image" => {
            let (image, rest) = number(rest)?;
            Ok((Candidate::Image(image), rest))
        }
        "assembly" => {
            let (assembly, rest) = number(rest)?;
            Ok((Candidate::Assembly(assembly), rest))
        }
        _ => Err(Unread::Differs),
    }
}

fn place(alloc: Global, rest: &[u8]) -> Result<(Event, &[u8]), Unread>
    ensures { Reads (λ x. (x.0, x.1.now)) result (place_read rest.now) }
{
    let (user, rest) = number(rest)?;
    let (key, rest) = key(alloc, rest)?;
    Ok((Event::Place { user, key }, rest))
}

fn load(alloc: Global, rest: &[u8]) -> Result<(Event, &[u8]), Unread>
    ensures { Reads (λ x. (x.0, x.1.now)) result (load_read rest.now) }
{
    let (key, rest) = key(alloc, rest)?;
    let (field, rest) = number(rest)?;
    let (kind, rest) = value_kind(rest)?;
    Ok((Event::LoadStatic { key, field, kind }, rest))
}

fn value_kind(rest: &[u8]) -> Result<(ValueKind, &[u8]), Unread>
    ensures { Reads (λ x. (x.0, x.1.now)) result (one_named value_kind_named rest.now) }
{
    let (kind, rest) = keyword(rest)?;
    match kind {
        "i4" => Ok((ValueKind::I4, rest)),
        "i8" => Ok((ValueKind::I8, rest)),
        "n" => Ok((ValueKind::N, rest)),
        "s" => Ok((ValueKind::S, rest)),
        _ => Err(Unread::Differs),
    }
}

fn store(alloc: Global, rest: &[u8]) -> Result<(Event, &[u8]), Unread>
    ensures { Reads (λ x. (x.0, x.1.now)) result (store_read rest.now) }
{
    let (key, rest) = key(alloc, rest)?;
    let (field, rest) = number(rest)?;
    let (value, rest) = value(alloc, rest)?;
    Ok((Event::StoreStatic { key, field, value }, rest))
}

/// A value: a number, a text or null. It is never a reference, since no event stores one.
pub(crate) fn value(alloc: Global, rest: &[u8]) -> Result<(Datum<Units>, &[u8]), Unread>
    ensures { Reads (λ x. (x.0, x.1.now)) result (value_read (λ units. units) rest.now) }
{
    let (kind, rest) = keyword(rest)?;
    match kind {
        "s" => {
            let (text, rest) = text(alloc, rest)?;
            Ok((Datum::S(text), rest))
        }
        _ => scalar(kind, rest),
    }
}

fn hold(alloc: Global, rest: &[u8]) -> Result<(Event, &[u8]), Unread>
    ensures { Reads (λ x. (x.0, x.1.now)) result (hold_read rest.now) }
{
    let (handle, rest) = name(alloc, rest)?;
    let (assembly, rest) = number(rest)?;
    let (method, rest) = number(rest)?;
    let event = Event::Hold {
        handle,
        assembly,
        method,
    };
    Ok((event, rest))
}

fn weak(alloc: Global, rest: &[u8]) -> Result<(Event, &[u8]), Unread>
    ensures { Reads (λ x. (x.0, x.1.now)) result (weak_read rest.now) }
{
    let (handle, rest) = name(alloc, rest)?;
    let (name, rest) = name(alloc, rest)?;
    Ok((Event::Weak { handle, name }, rest))
}

fn leave(rest: &[u8]) -> Result<(Event, &[u8]), Unread>
    ensures { Reads (λ x. (x.0, x.1.now)) result (leave_read rest.now) }
{
    let (operation, rest) = number(rest)?;
    Ok((Event::Leave { operation }, rest))
}
