//! What the rows of a table say, found by going through them.
ghost use Rattle.std.specs.Prelude.{◌≡◌, None};
ghost use Rattle.std.specs.List.{filter_map, last_or, position};
ghost use Rattle.std.specs.Option.{option_copied, option_to_list};
ghost use Rattle.load_context.specs.Contexts.{has_number, number_under, row_of};
ghost use Rattle.load_context.specs.Contexts.{unloaded, unloaded_if};

use crate::contexts::{Context, ContextRow};
use cli_words::Name;

/// The number of the last context that has the name.
pub(crate) fn last_named(contexts: &[Context], name: &Name) -> Option<u32>
    ensures { result ≡ last_or None (filter_map (number_under name.now) contexts.now) }
{
    let mut last = None;
    for context in contexts {
        last = number_or(last, context, name);
    }
    last
}

/// The number of the context, if it has the name, else the one before.
fn number_or(before: Option<u32>, context: &Context, name: &Name) -> Option<u32>
    ensures { result ≡ last_or before (option_to_list (number_under name.now context.now)) }
{
    if context.row.name == *name {
        Some(context.number)
    } else {
        before
    }
}

/// What is known of the context of this number.
pub(crate) fn row_of(contexts: &[Context], number: u32) -> Option<&ContextRow>
    ensures { option_copied result ≡ row_of contexts.now number }
{
    let found = contexts.iter().find(|context| context.number == number)?;
    Some(&found.row)
}

/// The place of the context of this number.
pub(crate) fn place_of(contexts: &[Context], number: u32) -> Option<usize>
    ensures { result ≡ position (has_number number) contexts.now }
{
    contexts.iter().position(|context| context.number == number)
}

/// Says of the context of this number that it is unloaded.
pub(crate) fn unload(contexts: &mut [Context], number: u32)
    ensures { contexts.new ≡ unloaded number contexts.old }
{
    for context in contexts.iter_mut() {
        unload_if(context, number);
    }
}

/// Says of the context that it is unloaded, if this is its number.
fn unload_if(context: &mut Context, number: u32)
    ensures { context.new ≡ unloaded_if number context.old }
{
    if context.number == number {
        context.row.unloaded = true;
    }
}
