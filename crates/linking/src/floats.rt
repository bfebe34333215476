//! Types of float and double.

ghost use Rattle.std.specs.Prelude.{◌≡◌, IfOk};
ghost use Rattle.std.specs.List.{list_any};
ghost use Rattle.std.specs.Option.{option_copied};
ghost use Rattle.linking.specs.Floats.{is_float_element, is_float, answers_float, has_float};

use crate::known::element_of;
use jnames::{DescFault, Descriptor, Param, Shape};
use kes_text::NoMemory;
use std::alloc::{AllocError, Global};

/// Whether the descriptor of an array's elements is that of float or double.
fn is_float_element(descriptor: &[u8]) -> bool
    ensures { result ≡ is_float_element descriptor.now }
{
    match descriptor {
        [byte] => *byte == b'F' || *byte == b'D',
        _ => false,
    }
}

/// Whether a type is float, double or an array of one.
fn is_float(param: &Param) -> bool
    ensures { result ≡ is_float param.now }
{
    match param.shape {
        Shape::Float | Shape::Double => true,
        Shape::Array => is_float_element(element_of(param.name.as_slice())),
        _ => false,
    }
}

/// Whether one of the types is.
fn is_one_float(params: &[Param]) -> bool
    ensures { result ≡ list_any is_float params.now }
{
    params.iter().any(|param| is_float(param))
}

/// Whether an answer is.
fn answers_float(answer: Option<&Param>) -> bool
    ensures { result ≡ answers_float (option_copied answer.entry) }
{
    match answer {
        Some(answer) => is_float(answer),
        None => false,
    }
}

/// Whether float, double or an array of one is among the types of a descriptor.
pub fn has_float(alloc: Global, descriptor: &[u8]) -> Result<bool, NoMemory>
    ensures { IfOk result (λ has. has ≡ has_float descriptor.now) }
{
    match Descriptor::read(alloc, descriptor) {
        Ok(found) => Ok(is_one_float(found.parameters()) || answers_float(found.answer())),
        Err(DescFault::Bad) => Ok(false),
        Err(DescFault::NoMemory) => Err(AllocError),
    }
}
