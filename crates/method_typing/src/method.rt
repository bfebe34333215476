//! A method with its instructions and the frame before each of them.

ghost use Rattle.std.specs.Prelude.{slice_get};
ghost use Rattle.kes_text.specs.Answers.{OrNoMemory};
ghost use Rattle.method_typing.specs.Method.{instructions_in, declared_frames, code_typed, typed_by, typed_of, method_typed};

use classfile::{Class, Code, Method};
use jcode::{Ins, decode};
use jworld::{MethodId, World};
use kes_text::{Kind, Refusal, Stop};
use sqlite_items::Items;
use stackmap::{Declared, Frame, read_frames, start_frame};
use std::alloc::Global;
use verify::verify;

/// A method of a world that is well typed: its instructions, and the frame before each of them.
#[derive(Drop)]
pub struct Typed {
    pub method: MethodId,
    pub code: Items<Ins>,
    pub frames: Items<Frame>,
}

/// The refusal of a method that has no code.
const UNTYPED: Stop = Stop::Refused(Refusal {
    file: 0,
    kind: Kind::Typing,
    at: 0,
});

/// The frames that a code declares.
fn declared_frames(
    alloc: Global,
    class: &Class<'_>,
    method: &Method<'_>,
    code: &Code<'_>,
) -> Result<Items<Declared>, Stop>
    ensures { OrNoMemory result (declared_frames class.now method.now code.now) }
{
    match code.maps {
        None => Ok(Items::new(alloc)),
        Some((base, table)) => {
            let start = start_frame(alloc, class, method)?;
            read_frames(alloc, table, base, class, &start)
        }
    }
}

/// The instructions of a code.
fn instructions_in(alloc: Global, class: &Class<'_>, code: &Code<'_>) -> Result<Items<Ins>, Stop>
    ensures { OrNoMemory result (instructions_in class.now code.now) }
{
    Ok(Items::from_vec(decode(alloc, code.bytes, code.at, class)?))
}

/// A method with this code.
#[tactic(auto, unfolding(crate::specs::Method::code_typed))]
fn type_code(
    alloc: Global,
    world: &World<'_>,
    id: MethodId,
    class: &Class<'_>,
    method: &Method<'_>,
    code: &Code<'_>,
) -> Result<Typed, Stop>
    ensures { OrNoMemory result (code_typed world.now id class.now method.now code.now) }
{
    let instructions = instructions_in(alloc, class, code)?;
    let declared = declared_frames(alloc, class, method, code)?;
    let frames = verify(
        alloc,
        world,
        id,
        instructions.as_slice(),
        declared.as_slice(),
    )?;
    Ok(Typed {
        method: id,
        code: instructions,
        frames,
    })
}

/// A method of this class.
fn type_in(alloc: Global, world: &World<'_>, id: MethodId, class: &Class<'_>) -> Result<Typed, Stop>
    ensures { OrNoMemory result (typed_of world.now id class.now (slice_get class.now.methods id.n)) }
{
    let Some(method) = class.methods().get(usize::from(id.n)) else {
        return Err(UNTYPED);
    };
    match &method.code {
        Some(code) => type_code(alloc, world, id, class, method, code),
        None => Err(UNTYPED),
    }
}

/// A method of a world with its instructions and the frame before each of them (JVMS SE 8, 4.10.1.6).
///
/// It refuses, at an offset in the method's class file and as file 0, the first of
/// - what `decode` refuses of its code;
/// - what `read_frames` refuses of its StackMapTable;
/// - what `verify` refuses of both: `FramePlace`, and where there is none, `Typing`.
///
/// A method that isn't there, or has no code, is `Typing` at 0.
#[tactic(auto, unfolding(crate::specs::Method::method_typed))]
pub fn type_method(alloc: Global, world: &World<'_>, id: MethodId) -> Result<Typed, Stop>
    ensures { OrNoMemory result (method_typed world.now id) }
{
    match world.get(id.class) {
        Some(class) => type_in(alloc, world, id, class),
        None => Err(UNTYPED),
    }
}
