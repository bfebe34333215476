//! Fields and calls.

ghost use Rattle.std.specs.Prelude.{◌≡◌, IfOk, option_map};
ghost use Rattle.std.specs.List.{list_any};
ghost use Rattle.jnames.specs.Descriptors.{signature_of};
ghost use Rattle.stackmap.specs.Start.{type_of};
ghost use Rattle.typing_rules.specs.Environment.{is_constructor};
ghost use Rattle.typing_rules.specs.Rules.Members.{field_named, static_read, static_written, field_read, is_declared_as, is_own_field, is_uninit_this, is_writable, field_written, method_named, arguments, answer_type, is_init, is_initialiser, static_called, called_on, virtual_called, made_as, constructed, constructor_called, is_own_or_above, special_called};

use crate::arrays::object;
use crate::environment::Environment;
use crate::transition::{all_taken, popped, taken, transition};
use classfile::{Field, Member};
use jnames::{DescFault, Descriptor, Param, Shape};
use kes_text::NoMemory;
use sqlite_items::Items;
use stackmap::VType;
use std::alloc::{AllocError, Global};
use type_states::{TypeState, instead_in, is_assignable, is_subclass_there};

/// The type of a parameter, an answer or a field.
pub fn type_of(alloc: Global, param: &Param) -> Result<VType, NoMemory>
    ensures { IfOk result (λ found. found ≡ type_of param.now) }
{
    match param.shape {
        Shape::Long => Ok(VType::Long),
        Shape::Float => Ok(VType::Float),
        Shape::Double => Ok(VType::Double),
        Shape::Class | Shape::Array => object(alloc, param.name.as_slice()),
        _ => Ok(VType::Integer),
    }
}

/// What a descriptor says.
pub fn signature_of(alloc: Global, descriptor: &[u8]) -> Result<Option<Descriptor>, NoMemory>
    ensures { IfOk result (λ found. found ≡ signature_of descriptor.now) }
{
    match Descriptor::read(alloc, descriptor) {
        Ok(signature) => Ok(Some(signature)),
        Err(DescFault::Bad) => Ok(None),
        Err(DescFault::NoMemory) => Err(AllocError),
    }
}

/// The field that an index names, and its type.
fn field_named<'w>(
    alloc: Global,
    e: &Environment<'_, 'w>,
    index: u16,
) -> Result<Option<(Member<'w>, VType)>, NoMemory>
    ensures { IfOk result (λ found. found ≡ field_named e.now index) }
{
    let Some(named) = e.class.member(index) else {
        return Ok(None);
    };
    let Some(signature) = signature_of(alloc, named.descriptor)? else {
        return Ok(None);
    };
    match signature.answer() {
        Some(answer) => {
            if signature.is_method() {
                Ok(None)
            } else {
                Ok(Some((named, type_of(alloc, answer)?)))
            }
        }
        None => Ok(None),
    }
}

pub fn static_read(
    alloc: Global,
    e: &Environment<'_, '_>,
    index: u16,
    state: TypeState,
) -> Result<Option<TypeState>, NoMemory>
    ensures { IfOk result (λ after. after ≡ static_read e.now index state) }
{
    match field_named(alloc, e, index)? {
        Some((_, held)) => transition(e.world, &[], Some(held), state),
        None => Ok(None),
    }
}

pub fn static_written(
    alloc: Global,
    e: &Environment<'_, '_>,
    index: u16,
    state: TypeState,
) -> Result<Option<TypeState>, NoMemory>
    ensures { IfOk result (λ after. after ≡ static_written e.now index state) }
{
    match field_named(alloc, e, index)? {
        Some((_, held)) => transition(e.world, &[held], None, state),
        None => Ok(None),
    }
}

pub fn field_read(
    alloc: Global,
    e: &Environment<'_, '_>,
    index: u16,
    state: TypeState,
) -> Result<Option<TypeState>, NoMemory>
    ensures { IfOk result (λ after. after ≡ field_read e.now index state) }
{
    match field_named(alloc, e, index)? {
        Some((named, held)) => {
            let receiver = object(alloc, named.class)?;
            transition(e.world, &[receiver], Some(held), state)
        }
        None => Ok(None),
    }
}

fn is_declared_as(named: &Member<'_>, field: &Field<'_>) -> bool
    ensures { result ≡ is_declared_as named.now field.now }
{
    field.name == named.name && field.descriptor == named.descriptor
}

fn declares(fields: &[Field<'_>], named: &Member<'_>) -> bool
    ensures { result ≡ list_any (is_declared_as named.now) fields.now }
{
    for field in fields {
        if is_declared_as(named, field) {
            return true;
        }
    }
    false
}

/// Whether the own class declares a field.
fn is_own_field(e: &Environment<'_, '_>, named: &Member<'_>) -> bool
    ensures { result ≡ is_own_field e.now named.now }
{
    named.class == e.class.name() && declares(e.class.fields(), named)
}

fn is_uninit_this(given: &VType) -> bool
    ensures { result ≡ is_uninit_this given.now }
{
    match given {
        VType::UninitThis => true,
        _ => false,
    }
}

/// Whether the method is a constructor.
pub fn is_constructor(e: &Environment<'_, '_>) -> bool
    ensures { result ≡ is_constructor e.now }
{
    let method = e.method;
    method.name == b"<init>".as_slice()
}

/// Whether a field may be written in an operand of this type.
fn is_writable(
    alloc: Global,
    e: &Environment<'_, '_>,
    named: &Member<'_>,
    receiver: &VType,
) -> Result<bool, NoMemory>
    ensures { IfOk result (λ holds. holds ≡ is_writable e.now named.now receiver.now) }
{
    let wanted = object(alloc, named.class)?;
    Ok(
        is_assignable(e.world, receiver, &wanted)
            || (is_uninit_this(receiver) && is_constructor(e) && is_own_field(e, named)),
    )
}

pub fn field_written(
    alloc: Global,
    e: &Environment<'_, '_>,
    index: u16,
    state: TypeState,
) -> Result<Option<TypeState>, NoMemory>
    ensures { IfOk result (λ after. after ≡ field_written e.now index state) }
{
    let Some((named, held)) = field_named(alloc, e, index)? else {
        return Ok(None);
    };
    let Some(below) = taken(e.world, &held, state) else {
        return Ok(None);
    };
    let Some((receiver, rest)) = popped(below) else {
        return Ok(None);
    };
    if is_writable(alloc, e, &named, &receiver)? {
        Ok(Some(rest))
    } else {
        Ok(None)
    }
}

/// The method that an index names.
fn method_named<'w>(
    alloc: Global,
    e: &Environment<'_, 'w>,
    index: u16,
) -> Result<Option<(Member<'w>, Descriptor)>, NoMemory>
    ensures { IfOk result (λ found. found ≡ method_named e.now index) }
{
    let Some(named) = e.class.member(index) else {
        return Ok(None);
    };
    let Some(signature) = signature_of(alloc, named.descriptor)? else {
        return Ok(None);
    };
    if signature.is_method() {
        Ok(Some((named, signature)))
    } else {
        Ok(None)
    }
}

/// The types of the arguments, the last first.
fn arguments(alloc: Global, signature: &Descriptor) -> Result<Items<VType>, NoMemory>
    ensures { IfOk result (λ types. types ≡ arguments signature.now) }
{
    let mut types = Items::new(alloc);
    let parameters = signature.parameters();
    let mut at = parameters.len();
    while at > 0 {
        at -= 1;
        types.push(type_of(alloc, &parameters[at])?)?;
    }
    Ok(types)
}

fn answer_type(alloc: Global, signature: &Descriptor) -> Result<Option<VType>, NoMemory>
    ensures { IfOk result (λ found. found ≡ answer_type signature.now) }
{
    match signature.answer() {
        Some(answer) => Ok(Some(type_of(alloc, answer)?)),
        None => Ok(None),
    }
}

fn is_init(name: &[u8]) -> bool
    ensures { result ≡ is_init name.now }
{
    name == b"<init>".as_slice()
}

fn is_initialiser(name: &[u8]) -> bool
    ensures { result ≡ is_initialiser name.now }
{
    is_init(name) || name == b"<clinit>".as_slice()
}

pub fn static_called(
    alloc: Global,
    e: &Environment<'_, '_>,
    index: u16,
    state: TypeState,
) -> Result<Option<TypeState>, NoMemory>
    ensures { IfOk result (λ after. after ≡ static_called e.now index state) }
{
    let Some((named, signature)) = method_named(alloc, e, index)? else {
        return Ok(None);
    };
    if is_initialiser(named.name) {
        return Ok(None);
    }
    let takes = arguments(alloc, &signature)?;
    let gives = answer_type(alloc, &signature)?;
    transition(e.world, takes.as_slice(), gives, state)
}

/// A call with a receiver of this class.
fn called_on(
    alloc: Global,
    e: &Environment<'_, '_>,
    class: &[u8],
    signature: &Descriptor,
    state: TypeState,
) -> Result<Option<TypeState>, NoMemory>
    ensures { IfOk result (λ after. after ≡ called_on e.now class.now signature.now state) }
{
    let mut takes = arguments(alloc, signature)?;
    takes.push(object(alloc, class)?)?;
    let gives = answer_type(alloc, signature)?;
    transition(e.world, takes.as_slice(), gives, state)
}

pub fn virtual_called(
    alloc: Global,
    e: &Environment<'_, '_>,
    index: u16,
    state: TypeState,
) -> Result<Option<TypeState>, NoMemory>
    ensures { IfOk result (λ after. after ≡ virtual_called e.now index state) }
{
    match method_named(alloc, e, index)? {
        Some((named, signature)) => {
            if is_initialiser(named.name) {
                Ok(None)
            } else {
                called_on(alloc, e, named.class, &signature, state)
            }
        }
        None => Ok(None),
    }
}

/// The class that the first new at a place makes objects of, if it is this one.
fn made_as<'w>(e: &Environment<'_, 'w>, pc: u16, class: &[u8]) -> Option<&'w [u8]>
    ensures { option_map (λ name. name.now) result ≡ made_as e.now pc class.now }
{
    let index = e.made_at(pc)?;
    let name = e.class.class_at(index)?;
    if name == class { Some(name) } else { None }
}

/// The class that a call of a constructor of this class makes an operand one of.
fn constructed<'w>(e: &Environment<'_, 'w>, class: &[u8], object: &VType) -> Option<&'w [u8]>
    ensures { option_map (λ name. name.now) result ≡ constructed e.now class.now object.now }
{
    match object {
        VType::UninitThis => {
            if class == e.class.name() || class == e.class.super_name() {
                Some(e.class.name())
            } else {
                None
            }
        }
        VType::Uninit(pc) => made_as(e, *pc, class),
        _ => None,
    }
}

fn constructor_called(
    alloc: Global,
    e: &Environment<'_, '_>,
    class: &[u8],
    signature: &Descriptor,
    state: TypeState,
) -> Result<Option<TypeState>, NoMemory>
    ensures { IfOk result (λ after. after ≡ constructor_called e.now class.now signature.now state) }
{
    let takes = arguments(alloc, signature)?;
    let Some(rest) = all_taken(e.world, takes.as_slice(), state) else {
        return Ok(None);
    };
    let Some((before, rest)) = popped(rest) else {
        return Ok(None);
    };
    let Some(made) = constructed(e, class, &before) else {
        return Ok(None);
    };
    if signature.answer().is_some() {
        return Ok(None);
    }
    let made = object(alloc, made)?;
    Ok(Some(instead_in(alloc, &before, &made, &rest)?))
}

/// Whether a class is the own one or above it.
fn is_own_or_above(e: &Environment<'_, '_>, class: &[u8]) -> bool
    ensures { result ≡ is_own_or_above e.now class.now }
{
    is_subclass_there(e.world, Some(e.own), e.world.class(class))
}

pub fn special_called(
    alloc: Global,
    e: &Environment<'_, '_>,
    index: u16,
    state: TypeState,
) -> Result<Option<TypeState>, NoMemory>
    ensures { IfOk result (λ after. after ≡ special_called e.now index state) }
{
    let Some((named, signature)) = method_named(alloc, e, index)? else {
        return Ok(None);
    };
    if is_init(named.name) {
        constructor_called(alloc, e, named.class, &signature, state)
    } else if is_initialiser(named.name) {
        Ok(None)
    } else if is_own_or_above(e, named.class) {
        called_on(alloc, e, e.class.name(), &signature, state)
    } else {
        Ok(None)
    }
}
