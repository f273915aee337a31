//! A reply once more.
ghost use Rattle.std.specs.Prelude.{◌≡◌, ◌≤◌, [], length};
ghost use Rattle.host_events.specs.Reserved.{sealed};
ghost use Rattle.host_core.specs.Replies.{CanCopyText, CanRetell};

use host_events::{Datum, Reply, Reserved, Room, Text};

/// The same reply once more. The numbers or the text that it holds stand in the room.
pub(crate) fn retold(reply: &Reply, room: Room) -> Reply
    requires { CanRetell reply.now room }
    ensures { result ≡ reply.now }
{
    match reply {
        Reply::Exists(context) => Reply::Exists(*context),
        Reply::Made(context) => Reply::Made(*context),
        Reply::NoContext => Reply::NoContext,
        Reply::Unloading(context) => Reply::Unloading(*context),
        Reply::Set(context) => Reply::Set(*context),
        Reply::Entered(operation, context) => Reply::Entered(*operation, *context),
        Reply::NoHandle => Reply::NoHandle,
        Reply::EnteredAt(operation, context, assembly, method) => {
            Reply::EnteredAt(*operation, *context, *assembly, *method)
        }
        Reply::Miss => Reply::Miss,
        Reply::Hit(assembly) => Reply::Hit(*assembly),
        Reply::Low(assembly) => Reply::Low(*assembly),
        Reply::Image(image) => Reply::Image(*image),
        Reply::Foreign(assembly) => Reply::Foreign(*assembly),
        Reply::Nothing => Reply::Nothing,
        Reply::Lost(assembly) => Reply::Lost(*assembly),
        Reply::NotCollectible(assembly) => Reply::NotCollectible(*assembly),
        Reply::Shared(assembly) => Reply::Shared(*assembly),
        Reply::Bound(assembly) => Reply::Bound(*assembly),
        Reply::Placed(context) => Reply::Placed(*context),
        Reply::Value(value) => Reply::Value(copied_datum(value, room.first)),
        Reply::Stored => Reply::Stored,
        Reply::InUse => Reply::InUse,
        Reply::Held(context) => Reply::Held(*context),
        Reply::Dropped => Reply::Dropped,
        Reply::Weakly(context) => Reply::Weakly(*context),
        Reply::Alive(context) => Reply::Alive(*context),
        Reply::Gone(context) => Reply::Gone(*context),
        Reply::Fixed(context) => Reply::Fixed(*context),
        Reply::Already(context) => Reply::Already(*context),
        Reply::Freed(contexts) => Reply::Freed(copied(contexts.numbers(), room.numbers)),
        Reply::Left => Reply::Left,
    }
}

fn copied_datum(value: &Datum<Text>, room: Text) -> Datum<Text>
    requires { CanCopyText value.now room }
    ensures { result ≡ value.now }
{
    match value {
        Datum::I4(number) => Datum::I4(*number),
        Datum::I8(number) => Datum::I8(*number),
        Datum::N(number) => Datum::N(*number),
        Datum::S(text) => Datum::S(copied(text.units(), room)),
        Datum::Null => Datum::Null,
        Datum::Ref => Datum::Ref,
    }
}

fn copied<T: Copy>(items: &[T], room: Reserved<T>) -> Reserved<T>
    requires empty { room.list ≡ [] }
    requires room { length items.now ≤ room.spare }
    ensures { result ≡ sealed items.now }
{
    let mut copy = room;
    for item in items {
        copy.push_reserved(*item);
    }
    copy.sealed()
}
