//! The check of a method (JVMS SE 8, 4.10.1.6).

ghost use Rattle.std.specs.Prelude.{◌≡◌};
ghost use Rattle.kes_text.specs.Answers.{OrNoMemory};
ghost use Rattle.kes_text.specs.declared.refusal.Stop.TheVariants.{Refused};
ghost use Rattle.typing_rules.specs.Environment.{environment_of};
ghost use Rattle.verify.specs.Typing.{typed_in, typed};

use crate::maps::{DeclaredFrames, first_unplaced};
use crate::walk::frames_of;
use jcode::Ins;
use jworld::{MethodId, World};
use kes_text::{Kind, Refusal, Stop};
use sqlite_items::Items;
use stackmap::{Declared, Frame};
use std::alloc::Global;
use typing_rules::{Starts, environment_of};

fn refused(kind: Kind, at: u64) -> Stop
    ensures { result ≡ Refused (record { file = 0; kind = kind; at = at }) }
{
    Stop::Refused(Refusal { file: 0, kind, at })
}

/// The frame before each instruction of a method, if it is there and has code.
fn typed_in(
    alloc: Global,
    world: &World<'_>,
    method: MethodId,
    starts: Starts<'_>,
    frames: &DeclaredFrames<'_>,
) -> Result<Items<Frame>, Stop>
    ensures { OrNoMemory result (typed_in frames.now (environment_of world.now method starts.entry)) }
{
    match environment_of(world, method, starts) {
        Some(e) => frames_of(alloc, &e, frames),
        None => Err(refused(Kind::Typing, 0)),
    }
}

/// The frame before each instruction of a method's code (JVMS SE 8, 4.10.1.6), with the frames that its
/// StackMapTable declares, `maps`.
///
/// It refuses, at an offset in the class file (no more than `u64::MAX`) and as file 0:
/// - `FramePlace`, at the tag of the first frame that doesn't stand at an instruction, or not behind the one
///   before, or whose types name a new that isn't there;
/// - where there is none, `Typing`, at the first instruction whose rule fails, which leaves what may not
///   come to where it jumps, or behind which the next one or the end may not stand; and at 0, where there
///   is no such method or it has no code.
///
/// Time is linear in the length of the code and of the frames, but for the logarithm by which a frame is
/// found.
#[tactic(auto, unfolding(crate::specs::Typing::typed))]
pub fn verify(
    alloc: Global,
    world: &World<'_>,
    method: MethodId,
    code: &[Ins],
    maps: &[Declared],
) -> Result<Items<Frame>, Stop>
    ensures { OrNoMemory result (typed world.now method code.now maps.now) }
{
    let starts = Starts::new(alloc, code)?;
    match first_unplaced(&starts, maps) {
        Some(at) => Err(refused(Kind::FramePlace, at)),
        None => {
            let frames = DeclaredFrames::new(alloc, maps)?;
            typed_in(alloc, world, method, starts, &frames)
        }
    }
}
