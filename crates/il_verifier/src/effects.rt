//! What each instruction does to the stack.
ghost use Rattle.std.specs.Prelude.{◌≡◌, ◌++◌, [], ◌∷◌, map, if◌then◌else◌, IfOk, OnOk};
ghost use Rattle.il_verifier.specs.Lines.{
  does,
  number_type,
  width_type,
  places,
  stores,
  into_key,
  give_key,
  call_on,
  give_result,
  effect_on_value,
  effect_on_numbers,
  effect_of_flow,
  effect_on_key,
  effect_on_place,
  effect_of_member,
  effect_on_array,
  effect_of,
};

use crate::effect::{Effect, Elements, Gift, Want};
use crate::facts::{BodyFacts, FieldFacts, MethodFacts, Use};
use crate::keys::{array_key, prim_key};
use crate::kind::{Computing, Flow, Kind, Naming, Number, Place, Simple, Vector, Width};
use il_flow::StackType;
use signatures::{Prim, TypeKey};
use std::alloc::{AllocError, Global};

fn number_type(number: Number) -> StackType
    ensures { result ≡ number_type number }
{
    match number {
        Number::Int32 => StackType::Int32,
        Number::Int64 => StackType::Int64,
        Number::Native => StackType::Native,
    }
}

/// What a number of a width is on the stack.
fn width_type(width: Width) -> StackType
    ensures { result ≡ width_type width }
{
    match width {
        Width::One | Width::Two | Width::Four => StackType::Int32,
        Width::Eight => StackType::Int64,
        Width::Native => StackType::Native,
    }
}

fn into_key(alloc: Global, key: &TypeKey) -> Result<Want, AllocError>
    ensures { IfOk result (λ want. want ≡ into_key key.now) }
{
    Ok(Want::Into(StackType::of(alloc, key)?))
}

fn into_owner(alloc: Global, owner: &TypeKey) -> Result<Want, AllocError>
    ensures { IfOk result (λ want. want ≡ Want.Into (StackType.Ref owner.now)) }
{
    Ok(Want::Into(StackType::Ref(owner.share(alloc)?)))
}

fn give_key(alloc: Global, key: &TypeKey) -> Result<Gift, AllocError>
    ensures { IfOk result (λ gift. gift ≡ give_key key.now) }
{
    Ok(Gift::Is(StackType::of(alloc, key)?))
}

fn on_value(alloc: Global, simple: Simple) -> Result<Effect, AllocError>
    ensures { IfOk result (λ effect. effect ≡ effect_on_value simple) }
{
    match simple {
        Simple::Idle => Ok(Effect::nothing(alloc)),
        Simple::Null => Effect::gives(alloc, StackType::Null),
        Simple::Constant(number) => Effect::gives(alloc, number_type(number)),
        Simple::Text => text(alloc),
        Simple::Duplicate => Effect::doubles(alloc),
        Simple::Discard => Effect::takes(alloc, Want::Anything),
    }
}

fn text(alloc: Global) -> Result<Effect, AllocError>
    ensures { IfOk result (λ effect. effect ≡ effect_on_value Simple.Text) }
{
    Effect::gives(alloc, StackType::Ref(prim_key(alloc, Prim::Text)?))
}

fn on_numbers(alloc: Global, computing: Computing) -> Result<Effect, AllocError>
    ensures { IfOk result (λ effect. effect ≡ effect_on_numbers computing) }
{
    match computing {
        Computing::Arithmetic => Effect::joins(alloc, false, Gift::Sum),
        Computing::Shift => shift(alloc),
        Computing::Negation => of_number(alloc, Gift::Same),
        Computing::Conversion(number) => of_number(alloc, Gift::Is(number_type(number))),
        Computing::Order => Effect::joins(alloc, false, Gift::Is(StackType::Int32)),
        Computing::Sameness => Effect::joins(alloc, true, Gift::Is(StackType::Int32)),
    }
}

fn shift(alloc: Global) -> Result<Effect, AllocError>
    ensures { IfOk result (λ effect. effect ≡ effect_on_numbers Computing.Shift) }
{
    Effect::turns(
        alloc,
        vec![in alloc; Want::Numeric, Want::Size]?,
        Gift::Same,
    )
}

fn of_number(alloc: Global, gift: Gift) -> Result<Effect, AllocError>
    ensures { IfOk result (λ effect. effect ≡ does (Want.Numeric ∷ []) (gift ∷ [])) }
{
    Effect::turns(alloc, vec![in alloc; Want::Numeric]?, gift)
}

fn of_flow(alloc: Global, facts: &BodyFacts, flow: Flow) -> Result<Effect, AllocError>
    ensures { IfOk result (λ effect. effect ≡ effect_of_flow facts.now flow) }
{
    match flow {
        Flow::Jump => Ok(Effect::nothing(alloc)),
        Flow::Test => Effect::takes(alloc, Want::Anything),
        Flow::Comparison => Ok(Effect::compares(alloc, false)),
        Flow::SameComparison => Ok(Effect::compares(alloc, true)),
        Flow::Choice => Effect::takes(alloc, Want::Int32),
        Flow::Return => returns(alloc, facts),
        Flow::Throw => Effect::takes(alloc, Want::Reference),
    }
}

fn returns(alloc: Global, facts: &BodyFacts) -> Result<Effect, AllocError>
    ensures { IfOk result (λ effect. effect ≡ effect_of_flow facts.now Flow.Return) }
{
    match &facts.result {
        Some(key) => Ok(Effect::returns(alloc, Some(StackType::of(alloc, key)?))),
        None => Ok(Effect::returns(alloc, None)),
    }
}

/// The arguments or the locals. A local is there where the body sets its locals to zeros and nulls.
pub(crate) fn places(facts: &BodyFacts, place: Place) -> &[TypeKey]
    ensures { result.now ≡ places facts.now place }
{
    match place {
        Place::Argument | Place::ArgumentStore => facts.args.items(),
        Place::Local | Place::LocalStore if facts.init_locals => facts.locals.items(),
        Place::Local | Place::LocalStore => &[],
    }
}

fn stores(place: Place) -> bool
    ensures { result ≡ stores place }
{
    matches!(place, Place::ArgumentStore | Place::LocalStore)
}

fn on_place(alloc: Global, facts: &BodyFacts, place: Place, n: usize) -> Result<Effect, AllocError>
    ensures { IfOk result (λ effect. effect ≡ effect_on_place facts.now place n) }
{
    match places(facts, place).get(n) {
        Some(key) if stores(place) => Effect::takes(alloc, into_key(alloc, key)?),
        Some(key) => Effect::gives(alloc, StackType::of(alloc, key)?),
        None if stores(place) => Effect::takes(alloc, Want::Anything),
        None => Effect::gives(alloc, StackType::Int32),
    }
}

fn push_params(alloc: Global, params: &[TypeKey], wants: &mut Vec<Want>) -> Result<(), AllocError>
    ensures { OnOk result (wants.new.items ≡ wants.old.items ++ map into_key params.now) }
{
    for param in params {
        wants.push(into_key(alloc, param)?)?;
    }
    Ok(())
}

/// The object that a method is called on, where it is not static.
fn target(alloc: Global, called: &MethodFacts) -> Result<Vec<Want>, AllocError>
    ensures { IfOk result (λ wants. wants.items
        ≡ (if called.now.is_static then [] else Want.Into (StackType.Ref called.now.owner) ∷ [])) }
{
    if called.is_static {
        return Ok(Vec::new(alloc));
    }
    Ok(vec![in alloc; into_owner(alloc, &called.owner)?]?)
}

fn call(alloc: Global, called: &MethodFacts) -> Result<Effect, AllocError>
    ensures { IfOk result (λ effect.
        effect ≡ does (call_on called.now) (give_result called.now.result)) }
{
    let mut wants = target(alloc, called)?;
    push_params(alloc, called.params.items(), &mut wants)?;
    match &called.result {
        Some(key) => Effect::turns(alloc, wants, give_key(alloc, key)?),
        None => Ok(Effect::stores(alloc, wants)),
    }
}

fn create(alloc: Global, called: &MethodFacts) -> Result<Effect, AllocError>
    ensures { IfOk result (λ effect. effect
        ≡ does (map into_key called.now.params) (Gift.Is (StackType.Ref called.now.owner) ∷ [])) }
{
    let mut wants = Vec::new(alloc);
    push_params(alloc, called.params.items(), &mut wants)?;
    let owner = called.owner.share(alloc)?;
    Effect::turns(alloc, wants, Gift::Is(StackType::Ref(owner)))
}

fn load_field(alloc: Global, kept: &FieldFacts) -> Result<Effect, AllocError>
    ensures { IfOk result (λ effect. effect ≡ effect_of_member Naming.Field (Use.OfField kept.now)) }
{
    let wants = vec![in alloc; into_owner(alloc, &kept.owner)?]?;
    Effect::turns(alloc, wants, give_key(alloc, &kept.holds)?)
}

fn store_field(alloc: Global, kept: &FieldFacts) -> Result<Effect, AllocError>
    ensures { IfOk result (λ effect.
        effect ≡ effect_of_member Naming.FieldStore (Use.OfField kept.now)) }
{
    let mut wants = vec![in alloc; into_owner(alloc, &kept.owner)?]?;
    wants.push(into_key(alloc, &kept.holds)?)?;
    Ok(Effect::stores(alloc, wants))
}

fn load_static(alloc: Global, kept: &FieldFacts) -> Result<Effect, AllocError>
    ensures { IfOk result (λ effect.
        effect ≡ effect_of_member Naming.Static (Use.OfField kept.now)) }
{
    Effect::gives(alloc, StackType::of(alloc, &kept.holds)?)
}

fn store_static(alloc: Global, kept: &FieldFacts) -> Result<Effect, AllocError>
    ensures { IfOk result (λ effect.
        effect ≡ effect_of_member Naming.StaticStore (Use.OfField kept.now)) }
{
    Effect::takes(alloc, into_key(alloc, &kept.holds)?)
}

fn cast(alloc: Global, key: &TypeKey) -> Result<Effect, AllocError>
    ensures { IfOk result (λ effect. effect ≡ effect_of_member Naming.Cast (Use.OfType key.now)) }
{
    let wants = vec![in alloc; Want::Reference]?;
    Effect::turns(alloc, wants, Gift::Is(StackType::Ref(key.share(alloc)?)))
}

fn new_array(alloc: Global, key: &TypeKey) -> Result<Effect, AllocError>
    ensures { IfOk result (λ effect. effect ≡ effect_of_member Naming.Array (Use.OfType key.now)) }
{
    let wants = vec![in alloc; Want::Size]?;
    Effect::turns(
        alloc,
        wants,
        Gift::Is(StackType::Ref(array_key(alloc, key)?)),
    )
}

/// An array and an index.
fn in_array(alloc: Global, elements: Elements) -> Result<Vec<Want>, AllocError>
    ensures { IfOk result (λ wants. wants.items ≡ Want.ArrayOf elements ∷ Want.Size ∷ []) }
{
    Ok(vec![in alloc; Want::ArrayOf(elements), Want::Size]?)
}

/// An array, an index and a value.
fn into_array(alloc: Global, elements: Elements, value: Want) -> Result<Effect, AllocError>
    ensures { IfOk result (λ effect.
        effect ≡ does (Want.ArrayOf elements ∷ Want.Size ∷ value ∷ []) []) }
{
    let wants = vec![in alloc; Want::ArrayOf(elements), Want::Size, value]?;
    Ok(Effect::stores(alloc, wants))
}

fn load_element(alloc: Global, key: &TypeKey) -> Result<Effect, AllocError>
    ensures { IfOk result (λ effect.
        effect ≡ effect_of_member Naming.Element (Use.OfType key.now)) }
{
    let wants = in_array(alloc, Elements::ReadAs(key.share(alloc)?))?;
    Effect::turns(alloc, wants, give_key(alloc, key)?)
}

fn store_element(alloc: Global, key: &TypeKey) -> Result<Effect, AllocError>
    ensures { IfOk result (λ effect.
        effect ≡ effect_of_member Naming.ElementStore (Use.OfType key.now)) }
{
    let value = into_key(alloc, key)?;
    into_array(alloc, Elements::WrittenAs(key.share(alloc)?), value)
}

fn of_member(alloc: Global, member: Naming, named: &Use) -> Result<Effect, AllocError>
    ensures { IfOk result (λ effect. effect ≡ effect_of_member member named.now) }
{
    match named {
        Use::OfMethod(called) => of_method(alloc, member, called),
        Use::OfField(kept) => of_field(alloc, member, kept),
        Use::OfType(key) => of_type(alloc, member, key),
        Use::Plain => Ok(Effect::nothing(alloc)),
    }
}

fn of_method(alloc: Global, member: Naming, called: &MethodFacts) -> Result<Effect, AllocError>
    ensures { IfOk result (λ effect. effect ≡ effect_of_member member (Use.OfMethod called.now)) }
{
    match member {
        Naming::Call | Naming::VirtualCall => call(alloc, called),
        Naming::Creation => create(alloc, called),
        _ => Ok(Effect::nothing(alloc)),
    }
}

fn of_field(alloc: Global, member: Naming, kept: &FieldFacts) -> Result<Effect, AllocError>
    ensures { IfOk result (λ effect. effect ≡ effect_of_member member (Use.OfField kept.now)) }
{
    match member {
        Naming::Field => load_field(alloc, kept),
        Naming::FieldStore => store_field(alloc, kept),
        Naming::Static => load_static(alloc, kept),
        Naming::StaticStore => store_static(alloc, kept),
        _ => Ok(Effect::nothing(alloc)),
    }
}

fn of_type(alloc: Global, member: Naming, key: &TypeKey) -> Result<Effect, AllocError>
    ensures { IfOk result (λ effect. effect ≡ effect_of_member member (Use.OfType key.now)) }
{
    match member {
        Naming::Cast => cast(alloc, key),
        Naming::Array => new_array(alloc, key),
        Naming::Element => load_element(alloc, key),
        Naming::ElementStore => store_element(alloc, key),
        _ => Ok(Effect::nothing(alloc)),
    }
}

fn on_array(alloc: Global, vector: Vector) -> Result<Effect, AllocError>
    ensures { IfOk result (λ effect. effect ≡ effect_on_array vector) }
{
    match vector {
        Vector::Length => length(alloc),
        Vector::NumberElement(width) => load_number(alloc, width),
        Vector::NumberStore(width) => {
            into_array(
                alloc,
                Elements::Numbers(width),
                Want::Into(width_type(width)),
            )
        }
        Vector::ReferenceElement => load_reference(alloc),
        Vector::ReferenceStore => store_reference(alloc),
    }
}

fn length(alloc: Global) -> Result<Effect, AllocError>
    ensures { IfOk result (λ effect. effect ≡ effect_on_array Vector.Length) }
{
    let wants = vec![in alloc; Want::ArrayOf(Elements::Any)]?;
    Effect::turns(alloc, wants, Gift::Is(StackType::Native))
}

fn load_number(alloc: Global, width: Width) -> Result<Effect, AllocError>
    ensures { IfOk result (λ effect. effect ≡ effect_on_array (Vector.NumberElement width)) }
{
    let wants = in_array(alloc, Elements::Numbers(width))?;
    Effect::turns(alloc, wants, Gift::Is(width_type(width)))
}

fn load_reference(alloc: Global) -> Result<Effect, AllocError>
    ensures { IfOk result (λ effect. effect ≡ effect_on_array Vector.ReferenceElement) }
{
    Effect::turns(alloc, in_array(alloc, Elements::References)?, Gift::Element)
}

fn store_reference(alloc: Global) -> Result<Effect, AllocError>
    ensures { IfOk result (λ effect. effect ≡ effect_on_array Vector.ReferenceStore) }
{
    let object = prim_key(alloc, Prim::Object)?;
    into_array(
        alloc,
        Elements::References,
        Want::Into(StackType::Ref(object)),
    )
}

/// What an instruction of a kind does, with the number of the argument or local that it names, and
/// what its token names.
pub(crate) fn effect_of(
    alloc: Global,
    facts: &BodyFacts,
    kind: Kind,
    n: usize,
    named: &Use,
) -> Result<Effect, AllocError>
    ensures { IfOk result (λ effect. effect ≡ effect_of facts.now kind n named.now) }
{
    match kind {
        Kind::OfValue(simple) => on_value(alloc, simple),
        Kind::OfNumbers(computing) => on_numbers(alloc, computing),
        Kind::OfFlow(flow) => of_flow(alloc, facts, flow),
        Kind::OfPlace(place) => on_place(alloc, facts, place, n),
        Kind::OfMember(member) => of_member(alloc, member, named),
        Kind::OfArray(vector) => on_array(alloc, vector),
    }
}
