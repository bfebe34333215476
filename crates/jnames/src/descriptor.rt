//! Descriptors of fields and methods (JVMS SE 8, 4.3).

ghost use Rattle.std.specs.Prelude.{◌≡◌, ◌≤◌, IfOk, IfErr, Some, None, map};
ghost use Rattle.std.specs.Option.{option_copied};
ghost use Rattle.jnames.specs.declared.descriptor.DescFault.TheVariants.{Bad};
ghost use Rattle.jnames.specs.Descriptors.{Signature, slots, parameters_at, parameters_of, answer_at, method_of, field_of, signature_of};

use crate::bytes::Bytes;
use crate::param::Param;
use crate::slots::slots_at;
use crate::types::type_at;
use std::alloc::{AllocError, Global};
use std::marker::Model;

/// The types of parameters, which contracts see as their list.
#[derive(Drop)]
struct Params {
    types: Vec<Param>,
}

impl Model for Params {
    ghost use Rattle.std.specs.Prelude.{List};
    ghost use Rattle.jnames.specs.declared.param.Param.{Param};

    ghost Value = { List Param };

    ghost view = { λ p. p.types.items };
}

const MAX_PARAMETERS: u16 = 255;

/// At most 255 types, and a `)` behind them.
fn parameters_at<'a>(
    alloc: Global,
    bytes: &Bytes<'a>,
) -> Result<Option<(Params, Bytes<'a>)>, AllocError>
    ensures { IfOk result (λ found. found ≡ parameters_at 255 bytes.now) }
{
    let mut types = Vec::new(alloc);
    let mut rest = Bytes::new(bytes.as_slice());
    for _ in 0..MAX_PARAMETERS {
        if rest.begins_with(b')') {
            break;
        }
        let Some((found, behind)) = type_at(&rest) else {
            return Ok(None);
        };
        types.push(found.to_param(alloc)?)?;
        rest = behind;
    }
    match rest.behind(b')') {
        Some(behind) => Ok(Some((Params { types }, behind))),
        None => Ok(None),
    }
}

/// The parameters, which take at most 255 slots.
fn parameters_of<'a>(
    alloc: Global,
    bytes: &Bytes<'a>,
) -> Result<Option<(Params, Bytes<'a>)>, AllocError>
    ensures { IfOk result (λ found. found ≡ parameters_of bytes.now) }
{
    match slots_at(bytes) {
        Some((slots, _)) if slots <= MAX_PARAMETERS => parameters_at(alloc, bytes),
        _ => Ok(None),
    }
}

/// The type that a method answers, or none for void.
fn answer_at<'a>(
    alloc: Global,
    bytes: &Bytes<'a>,
) -> Result<Option<(Option<Param>, Bytes<'a>)>, AllocError>
    ensures { IfOk result (λ found. found ≡ answer_at bytes.now) }
{
    if let Some(rest) = bytes.behind(b'V') {
        return Ok(Some((None, rest)));
    }
    match type_at(bytes) {
        Some((found, rest)) => Ok(Some((Some(found.to_param(alloc)?), rest))),
        None => Ok(None),
    }
}

/// What a descriptor says: the types of a method's parameters and the type that it answers, or the type
/// of a field. Contracts see it as `Signature`.
#[derive(Drop)]
pub struct Descriptor {
    is_method: bool,
    parameters: Params,
    answer: Option<Param>,
}

impl Model for Descriptor {
    ghost use Rattle.jnames.specs.Descriptors.{Signature};

    ghost Value = { Signature };

    ghost view = { λ d. record { is_method = d.is_method; parameters = d.parameters; answer = d.answer } };
}

/// Why no descriptor was read.
#[derive(Clone, Copy, Debug, PartialEq, Eq)]
pub enum DescFault {
    /// The bytes are neither a field nor a method descriptor.
    Bad,
    NoMemory,
}

fn method_of(alloc: Global, bytes: &Bytes<'_>) -> Result<Option<Descriptor>, AllocError>
    ensures { IfOk result (λ found. found ≡ method_of bytes.now) }
{
    let Some(rest) = bytes.behind(b'(') else {
        return Ok(None);
    };
    let Some((parameters, rest)) = parameters_of(alloc, &rest)? else {
        return Ok(None);
    };
    let Some((answer, rest)) = answer_at(alloc, &rest)? else {
        return Ok(None);
    };
    if !rest.is_empty() {
        return Ok(None);
    }
    Ok(Some(Descriptor {
        is_method: true,
        parameters,
        answer,
    }))
}

fn field_of(alloc: Global, bytes: &Bytes<'_>) -> Result<Option<Descriptor>, AllocError>
    ensures { IfOk result (λ found. found ≡ field_of bytes.now) }
{
    let Some((found, rest)) = type_at(bytes) else {
        return Ok(None);
    };
    if !rest.is_empty() {
        return Ok(None);
    }
    let answer = found.to_param(alloc)?;
    Ok(Some(Descriptor {
        is_method: false,
        parameters: Params {
            types: Vec::new(alloc),
        },
        answer: Some(answer),
    }))
}

#[tactic(auto, unfolding(crate::specs::Descriptors::signature_of))]
fn signature_of(alloc: Global, bytes: &[u8]) -> Result<Option<Descriptor>, AllocError>
    ensures { IfOk result (λ found. found ≡ signature_of bytes.now) }
{
    let bytes = Bytes::new(bytes);
    if bytes.begins_with(b'(') {
        method_of(alloc, &bytes)
    } else {
        field_of(alloc, &bytes)
    }
}

impl Descriptor {
    /// The descriptor that all of the bytes are (JVMS SE 8, 4.3).
    ///
    /// A class name ends at its `;` and has the form of 4.2.1, an array has at most 255 dimensions, and
    /// the parameters of a method take at most 255 slots, where `long` and `double` take two. `Bad`
    /// comes exactly where the bytes are neither a field nor a method descriptor. What is read is what
    /// the bytes spell: see `descriptors_read_what_is_spelled`.
    pub fn read(alloc: Global, bytes: &[u8]) -> Result<Descriptor, DescFault>
        ensures value { IfOk result (λ found. signature_of bytes.now ≡ Some found) }
        ensures bad { IfErr result (λ fault. fault ≡ Bad → signature_of bytes.now ≡ None) }
    {
        match signature_of(alloc, bytes) {
            Ok(Some(found)) => Ok(found),
            Ok(None) => Err(DescFault::Bad),
            Err(_) => Err(DescFault::NoMemory),
        }
    }

    /// Whether it is a method's.
    pub fn is_method(&self) -> bool
        ensures { result ≡ self.now.is_method }
    {
        self.is_method
    }

    /// The types of a method's parameters in their order; a field's descriptor has none.
    pub fn parameters(&self) -> &[Param]
        ensures { result.now ≡ self.now.parameters }
    {
        self.parameters.types.as_slice()
    }

    /// The type that a method answers, which void lacks, or the type of a field.
    pub fn answer(&self) -> Option<&Param>
        ensures { option_copied result ≡ self.now.answer }
    {
        self.answer.as_ref()
    }
}
