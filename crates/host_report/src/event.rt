// The texts of events.
ghost use Rattle.std.specs.Prelude.{◌≡◌, ℕ, List, [], ◌∷◌, ◌++◌, codes};
ghost use Rattle.host_report.specs.Fields.{Field, fields_text};
ghost use Rattle.host_report.specs.Table.{answer_fields, candidate_fields, event_fields, kind_fields};
ghost use Rattle.host_report.specs.Table.{kind_word, place_fields, step_word};
ghost use Rattle.host_report.specs.Line.{Puts};

use crate::field::{put_decimal, put_name, put_simple_name, put_version, put_word};
use crate::key_text::put_key;
use crate::line::Line;
use crate::value::put_units_value;
use assembly_name::{SimpleName, Version};
use cli_words::{Name, Units};
use host_events::{AskStep, Candidate, ContextKind, Datum, Event, RuleAnswer, RuleAt, ValueKind};
use plug_io::Sink;
use signatures::TypeKey;

/// Puts an event, with the space before it.
pub(crate) fn put_event<S: Sink>(line: &mut Line, out: &mut S, event: &Event)
    ensures { Puts S.written S.faults line.old out.old line.new out.new
        (fields_text (event_fields event.now)) }
{
    match event {
        Event::New { name, kind } => put_new(line, out, name, *kind),
        Event::Rule {
            place,
            name,
            answer,
        } => put_rule(line, out, place, name, answer),
        Event::Enter { name } => put_named(line, out, b"enter", name),
        Event::EnterHandle { handle } => put_named(line, out, b"enter-handle", handle),
        Event::Lookup {
            context,
            name,
            version,
        } => put_lookup(line, out, *context, name, *version),
        Event::Ask {
            step,
            context,
            name,
        } => put_ask(line, out, *step, *context, name),
        Event::Publish {
            context,
            name,
            candidate,
        } => put_publish(line, out, *context, name, *candidate),
        Event::Place { user, key } => put_placing(line, out, *user, key),
        Event::LoadStatic { key, field, kind } => put_load(line, out, key, *field, *kind),
        Event::StoreStatic { key, field, value } => put_store(line, out, key, *field, value),
        Event::Hold {
            handle,
            assembly,
            method,
        } => put_hold(line, out, handle, *assembly, *method),
        Event::DropHandle { handle } => put_named(line, out, b"drop", handle),
        Event::Weak { handle, name } => put_weak(line, out, handle, name),
        Event::Alive { handle } => put_named(line, out, b"alive", handle),
        Event::Unload { name } => put_named(line, out, b"unload", name),
        Event::Collect => put_collect(line, out),
        Event::Leave { operation } => put_counted(line, out, b"leave", *operation),
    }
}

fn put_new<S: Sink>(line: &mut Line, out: &mut S, name: &Name, kind: ContextKind)
    ensures { Puts S.written S.faults line.old out.old line.new out.new
        (fields_text (event_fields (Event.New name.now kind))) }
{
    put_named(line, out, b"new", name);
    put_kind(line, out, kind);
}

fn put_rule<S: Sink>(
    line: &mut Line,
    out: &mut S,
    place: &RuleAt,
    name: &SimpleName,
    answer: &RuleAnswer,
)
    ensures { Puts S.written S.faults line.old out.old line.new out.new
        (fields_text (event_fields (Event.Rule place.now name.now answer.now))) }
{
    put_place(line, out, place);
    put_simple_name(line, out, name);
    put_answer(line, out, answer);
}

fn put_lookup<S: Sink>(
    line: &mut Line,
    out: &mut S,
    context: u32,
    name: &SimpleName,
    version: Version,
)
    ensures { Puts S.written S.faults line.old out.old line.new out.new
        (fields_text (event_fields (Event.Lookup context name.now version))) }
{
    put_word(line, out, b"lookup");
    put_decimal(line, out, context);
    put_simple_name(line, out, name);
    put_version(line, out, version);
}

fn put_ask<S: Sink>(line: &mut Line, out: &mut S, step: AskStep, context: u32, name: &SimpleName)
    ensures { Puts S.written S.faults line.old out.old line.new out.new
        (fields_text (event_fields (Event.Ask step context name.now))) }
{
    put_word(line, out, b"ask");
    put_word(line, out, step_word(step));
    put_decimal(line, out, context);
    put_simple_name(line, out, name);
}

fn put_publish<S: Sink>(
    line: &mut Line,
    out: &mut S,
    context: u32,
    name: &SimpleName,
    candidate: Candidate,
)
    ensures { Puts S.written S.faults line.old out.old line.new out.new
        (fields_text (event_fields (Event.Publish context name.now candidate))) }
{
    put_word(line, out, b"publish");
    put_decimal(line, out, context);
    put_simple_name(line, out, name);
    put_candidate(line, out, candidate);
}

fn put_placing<S: Sink>(line: &mut Line, out: &mut S, user: u32, key: &TypeKey)
    ensures { Puts S.written S.faults line.old out.old line.new out.new
        (fields_text (event_fields (Event.Place user key.now))) }
{
    put_word(line, out, b"place");
    put_decimal(line, out, user);
    put_key(line, out, key);
}

fn put_load<S: Sink>(line: &mut Line, out: &mut S, key: &TypeKey, field: u32, kind: ValueKind)
    ensures { Puts S.written S.faults line.old out.old line.new out.new
        (fields_text (event_fields (Event.LoadStatic key.now field kind))) }
{
    put_word(line, out, b"load-static");
    put_key(line, out, key);
    put_decimal(line, out, field);
    put_word(line, out, kind_word(kind));
}

fn put_store<S: Sink>(line: &mut Line, out: &mut S, key: &TypeKey, field: u32, value: &Datum<Units>)
    ensures { Puts S.written S.faults line.old out.old line.new out.new
        (fields_text (event_fields (Event.StoreStatic key.now field value.now))) }
{
    put_word(line, out, b"store-static");
    put_key(line, out, key);
    put_decimal(line, out, field);
    put_units_value(line, out, value);
}

fn put_hold<S: Sink>(line: &mut Line, out: &mut S, handle: &Name, assembly: u32, method: u32)
    ensures { Puts S.written S.faults line.old out.old line.new out.new
        (fields_text (event_fields (Event.Hold handle.now assembly method))) }
{
    put_word(line, out, b"hold");
    put_name(line, out, handle);
    put_decimal(line, out, assembly);
    put_decimal(line, out, method);
}

fn put_weak<S: Sink>(line: &mut Line, out: &mut S, handle: &Name, name: &Name)
    ensures { Puts S.written S.faults line.old out.old line.new out.new
        (fields_text (event_fields (Event.Weak handle.now name.now))) }
{
    put_word(line, out, b"weak");
    put_name(line, out, handle);
    put_name(line, out, name);
}

fn put_collect<S: Sink>(line: &mut Line, out: &mut S)
    ensures { Puts S.written S.faults line.old out.old line.new out.new
        (fields_text (event_fields (Event.Collect))) }
{
    put_word(line, out, b"collect");
}

// Puts a word and a name.
fn put_named<S: Sink>(line: &mut Line, out: &mut S, word: &[u8], name: &Name)
    ensures { Puts S.written S.faults line.old out.old line.new out.new
        (fields_text (Field.Word word.now ∷ Field.Named name.now ∷ [])) }
{
    put_word(line, out, word);
    put_name(line, out, name);
}

fn put_kind<S: Sink>(line: &mut Line, out: &mut S, kind: ContextKind)
    ensures { Puts S.written S.faults line.old out.old line.new out.new
        (fields_text (kind_fields kind)) }
{
    match kind {
        ContextKind::Collectible => {}
        ContextKind::Fixed => put_word(line, out, b"fixed"),
    }
}

fn put_place<S: Sink>(line: &mut Line, out: &mut S, place: &RuleAt)
    ensures { Puts S.written S.faults line.old out.old line.new out.new
        (fields_text (place_fields place.now)) }
{
    match place {
        RuleAt::On(name) => put_named(line, out, b"on", name),
        RuleAt::Resolving(name) => put_named(line, out, b"resolving", name),
        RuleAt::Resolve => put_word(line, out, b"resolve"),
    }
}

fn put_answer<S: Sink>(line: &mut Line, out: &mut S, answer: &RuleAnswer)
    ensures { Puts S.written S.faults line.old out.old line.new out.new
        (fields_text (answer_fields answer.now)) }
{
    match answer {
        RuleAnswer::Image(image) => put_counted(line, out, b"image", *image),
        RuleAnswer::Share(name) => put_named(line, out, b"share", name),
        RuleAnswer::Nothing => put_word(line, out, b"none"),
    }
}

fn put_candidate<S: Sink>(line: &mut Line, out: &mut S, candidate: Candidate)
    ensures { Puts S.written S.faults line.old out.old line.new out.new
        (fields_text (candidate_fields candidate)) }
{
    match candidate {
        Candidate::Image(image) => put_counted(line, out, b"image", image),
        Candidate::Assembly(assembly) => put_counted(line, out, b"assembly", assembly),
    }
}

// Puts a word and a number.
fn put_counted<S: Sink>(line: &mut Line, out: &mut S, word: &[u8], number: u32)
    ensures { Puts S.written S.faults line.old out.old line.new out.new
        (fields_text (Field.Word word.now ∷ Field.Number number ∷ [])) }
{
    put_word(line, out, word);
    put_decimal(line, out, number);
}

fn step_word(step: AskStep) -> &'static [u8]
    ensures { result.now ≡ step_word step }
{
    match step {
        AskStep::Load => b"load",
        AskStep::Default => b"default",
        AskStep::Resolving => b"resolving",
        AskStep::Resolve => b"resolve",
    }
}

fn kind_word(kind: ValueKind) -> &'static [u8]
    ensures { result.now ≡ kind_word kind }
{
    match kind {
        ValueKind::I4 => b"i4",
        ValueKind::I8 => b"i8",
        ValueKind::N => b"n",
        ValueKind::S => b"s",
    }
}
