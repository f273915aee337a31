//! The orders of a thread.
ghost use Rattle.std.specs.Prelude.{◌≡◌, Some, true, IfOk, IsSome};
ghost use Rattle.std.specs.Option.{option_map};
ghost use Rattle.assembly_image.specs.Names.{assembly_name};
ghost use Rattle.assembly_image.specs.Reading.{module_of};
ghost use Rattle.host_events.specs.declared.event.Event.TheVariants as events;
ghost use Rattle.bind_flow.specs.Images.{reading_at};
ghost use Rattle.command_flow.specs.Events.{answer_of, is_built, kind_of};
ghost use Rattle.host_events.specs.Rooms.{most_contexts, numbers_due, room_for};
ghost use Rattle.command_flow.specs.Turns.{IsLoad, first_event, order_for, publication, refused};

use assembly_image::AssemblyImage;
use assembly_name::SimpleName;
use bind_flow::{ImageCode, ImageReading, Images};
use cli_words::{CheckCode, FailedCheck, Name};
use host_events::{Candidate, ContextKind, Event, Numbers, Order, Room, RuleAnswer, RuleAt, Text};
use host_script::{Command, ScriptAnswer};
use std::alloc::{AllocError, Global};
use std::sync::Arc;

/// The most contexts of a host, with the one of `default`.
const MOST_CONTEXTS: u32 = 1088;

/// The most bytes of an image.
const IMAGE_LIMIT: u32 = 4_194_304;

/// The order of the first event of a command.
pub fn first_order(alloc: Global, command: &Command) -> Result<Order<ImageCode>, AllocError>
    requires { is_built command.now ≡ true }
    ensures event { IfOk result (λ order. first_event command.now ≡ Some order.event) }
    ensures order { IfOk result (λ order. order ≡ order_for order.event) }
{
    let event = first_event(alloc, command)?;
    let again = first_event(alloc, command)?;
    plain_order(alloc, event, again)
}

/// The order of an event, which is given twice, without code.
fn plain_order(alloc: Global, event: Event, again: Event) -> Result<Order<ImageCode>, AllocError>
    requires { again ≡ event }
    ensures { IfOk result (λ order. order ≡ order_for event) }
{
    let (room, copy) = two_rooms(alloc, numbers_of(&event))?;
    Ok(Order {
        event,
        again,
        code: None,
        room,
        copy,
    })
}

/// The order by which a thread leaves an operation.
pub fn leave_order(alloc: Global, operation: u32) -> Order<ImageCode>
    ensures { result ≡ order_for (events.Leave operation) }
{
    Order {
        event: Event::Leave { operation },
        again: Event::Leave { operation },
        code: None,
        room: no_room(alloc),
        copy: no_room(alloc),
    }
}

/// The order by which an image is published in a context under its own name.
pub fn load_order(
    alloc: Global,
    images: &Images,
    context: u32,
    image: u32,
) -> Result<Order<ImageCode>, AllocError>
    requires there { IsSome (reading_at images.now image) }
    requires good { option_map refused (reading_at images.now image) ≡ Some None }
    ensures { IfOk result (IsLoad images.now context image) }
{
    match images.reading(image) {
        Some(ImageReading::Good(shared)) => Ok(Order {
            event: publication(alloc, shared, context, image)?,
            again: publication(alloc, shared, context, image)?,
            code: Some(ImageCode {
                image,
                context,
                shared: Arc::try_clone(shared)?,
            }),
            room: no_room(alloc),
            copy: no_room(alloc),
        }),
        _ => unreachable!(),
    }
}

/// The publication of an image under its own name.
fn publication(
    alloc: Global,
    shared: &AssemblyImage,
    context: u32,
    image: u32,
) -> Result<Event, AllocError>
    ensures { IfOk result (λ event. event ≡ publication (module_of shared.now) context image) }
{
    Ok(Event::Publish {
        context,
        name: shared.name().share(alloc)?,
        candidate: Candidate::Image(image),
    })
}

/// Why the file of an image is refused, if it is no image.
pub fn refused(images: &Images, image: u32) -> Option<FailedCheck>
    requires { IsSome (reading_at images.now image) }
    ensures { option_map refused (reading_at images.now image) ≡ Some result }
{
    match images.reading(image) {
        Some(ImageReading::Absent) => Some(FailedCheck {
            code: CheckCode::Absent,
            at: 0,
        }),
        Some(ImageReading::TooLong) => Some(FailedCheck {
            code: CheckCode::TooLong,
            at: IMAGE_LIMIT,
        }),
        Some(ImageReading::Bad(failed)) => Some(*failed),
        Some(ImageReading::Good(_)) => None,
        None => unreachable!(),
    }
}

/// The first event of a command: its one event, or that by which its operation begins.
fn first_event(alloc: Global, command: &Command) -> Result<Event, AllocError>
    requires { is_built command.now ≡ true }
    ensures { IfOk result (λ event. first_event command.now ≡ Some event) }
{
    match command {
        Command::New { context, fixed } => Ok(Event::New {
            name: context.share(alloc)?,
            kind: kind_of(*fixed),
        }),
        Command::On {
            context,
            name,
            answer,
        } => rule(alloc, RuleAt::On(context.share(alloc)?), name, answer),
        Command::Resolving {
            context,
            name,
            answer,
        } => rule(
            alloc,
            RuleAt::Resolving(context.share(alloc)?),
            name,
            answer,
        ),
        Command::Resolve { name, answer } => rule(alloc, RuleAt::Resolve, name, answer),
        Command::Load { context, .. } | Command::Bind { context, .. } => Ok(Event::Enter {
            name: context.share(alloc)?,
        }),
        Command::Weak { handle, context } => weak(alloc, handle, context),
        Command::Alive { handle } => Ok(Event::Alive {
            handle: handle.share(alloc)?,
        }),
        Command::Unload { context } => Ok(Event::Unload {
            name: context.share(alloc)?,
        }),
        Command::Collect => Ok(Event::Collect),
        Command::Call { .. }
        | Command::Hold { .. }
        | Command::Invoke { .. }
        | Command::DropHandle { .. } => unreachable!(),
    }
}

/// The event that sets a rule.
fn rule(
    alloc: Global,
    place: RuleAt,
    name: &SimpleName,
    answer: &ScriptAnswer,
) -> Result<Event, AllocError>
    ensures { IfOk result (λ event. event ≡ events.Rule place name.now (answer_of answer.now)) }
{
    Ok(Event::Rule {
        place,
        name: name.share(alloc)?,
        answer: answer_of(alloc, answer)?,
    })
}

/// The event that makes a weak handle.
fn weak(alloc: Global, handle: &Name, context: &Name) -> Result<Event, AllocError>
    ensures { IfOk result (λ event. event ≡ events.Weak handle.now context.now) }
{
    Ok(Event::Weak {
        handle: handle.share(alloc)?,
        name: context.share(alloc)?,
    })
}

fn kind_of(fixed: bool) -> ContextKind
    ensures { result ≡ kind_of fixed }
{
    if fixed {
        ContextKind::Fixed
    } else {
        ContextKind::Collectible
    }
}

fn answer_of(alloc: Global, answer: &ScriptAnswer) -> Result<RuleAnswer, AllocError>
    ensures { IfOk result (λ made. made ≡ answer_of answer.now) }
{
    match answer {
        ScriptAnswer::Image(image) => Ok(RuleAnswer::Image(*image)),
        ScriptAnswer::Share(context) => Ok(RuleAnswer::Share(context.share(alloc)?)),
        ScriptAnswer::Nothing => Ok(RuleAnswer::Nothing),
    }
}

/// How many numbers the reply to the event may list.
fn numbers_of(event: &Event) -> u32
    ensures { result ≡ numbers_due most_contexts event.now }
{
    match event {
        Event::Collect => MOST_CONTEXTS,
        _ => 0,
    }
}

/// Room for so many numbers, and for no text, twice.
fn two_rooms(alloc: Global, numbers: u32) -> Result<(Room, Room), AllocError>
    ensures room { IfOk result (λ rooms. rooms.0 ≡ room_for numbers) }
    ensures copy { IfOk result (λ rooms. rooms.1 ≡ room_for numbers) }
{
    let room = room_for(alloc, numbers)?;
    Ok((room, room_for(alloc, numbers)?))
}

/// Room for so many numbers, and for no text.
fn room_for(alloc: Global, numbers: u32) -> Result<Room, AllocError>
    ensures { IfOk result (λ room. room ≡ room_for numbers) }
{
    Ok(Room {
        numbers: Numbers::new(alloc, numbers)?,
        first: Text::new(alloc, 0)?,
        second: Text::new(alloc, 0)?,
        third: Text::new(alloc, 0)?,
    })
}

/// No room for a list or a text.
fn no_room(alloc: Global) -> Room
    ensures { result ≡ room_for 0 }
{
    Room {
        numbers: Numbers::of(Vec::new(alloc)),
        first: Text::of(Vec::new(alloc)),
        second: Text::of(Vec::new(alloc)),
        third: Text::of(Vec::new(alloc)),
    }
}
