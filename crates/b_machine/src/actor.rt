//! The actors of a run.

ghost use Rattle.std.specs.Prelude.{◌≡◌, [], false, true, drop, reverse, slice_get, OnOk, OnErr};
ghost use Rattle.b_machine.specs.State.{no_actor, one_frame};
ghost use Rattle.b_machine.specs.Callers.{called, handed_over, to_caller, advanced, answered_by, untopped, HasTop};
ghost use Rattle.b_machine.specs.Step.{answered};
ghost use Rattle.b_machine.specs.Frames.{is_idle, has_caller};

use crate::frames::Frame;
use crate::program::Program;
use jworld::MethodId;
use kes_text::NoMemory;
use reaching::Pair;
use std::alloc::Global;
use std::marker::Model;
use values::Value;

/// The start, or a task's job: its frames, the innermost of which stands apart, and the initialisers that the start has
/// still to run, of which the next is the last.
#[derive(Drop)]
pub struct Actor {
    pub(crate) top: Option<Frame>,
    below: Vec<Frame>,
    refused: bool,
    later: Vec<Pair>,
}

impl Model for Actor {
    ghost use Rattle.std.specs.Prelude.{◌≡◌, [], None, reverse};
    ghost use Rattle.b_machine.specs.State as spec;
    ghost use Rattle.b_machine.specs.Frames.{frames_of};

    ghost Value = { spec.Actor };

    ghost view = { λ a. record { frames = frames_of a.top a.below.items; refused = a.refused; later = reverse a.later.items } };

    ghost invariant = { λ a. a.top ≡ None → a.below.items ≡ [] };
}

/// Hands a caller the answer of what it called.
fn give(caller: &mut Frame, answer: Option<Value>) -> Result<(), NoMemory>
    ensures ok { OnOk result (caller.new ≡ answered answer caller.old) }
    ensures err { OnErr result (caller.new ≡ caller.old) }
{
    match answer {
        Some(value) => caller.values.push(value),
        None => Ok(()),
    }
}

impl Actor {
    /// An actor that does nothing, and has these initialisers to run, of which the next is the last.
    pub fn new(alloc: Global, later: Vec<Pair>) -> Actor
        ensures { result ≡ record no_actor { later = reverse later.items } }
    {
        Actor {
            top: None,
            below: Vec::new(alloc),
            refused: false,
            later,
        }
    }

    /// Begins at this frame, or does nothing.
    pub fn begin(&mut self, frame: Option<Frame>)
        ensures { self.new ≡ record self.old { frames = one_frame frame; refused = false } }
    {
        self.below.clear();
        self.top = frame;
        self.refused = false;
    }

    /// Has no frame any more.
    pub fn leave(&mut self)
        ensures { self.new ≡ record self.old { frames = [] } }
    {
        self.below.clear();
        self.top = None;
    }

    /// Whether it has no frame.
    pub fn is_idle(&self) -> bool
        ensures { result ≡ is_idle self.now.frames }
    {
        self.top.is_none()
    }

    /// Whether its innermost frame has a caller.
    pub fn has_caller(&self) -> bool
        ensures { result ≡ has_caller self.now.frames }
    {
        !self.below.is_empty()
    }

    /// Whether the TerminateTask behind the return of its entry was refused.
    pub fn refused(&self) -> bool
        ensures { result ≡ self.now.refused }
    {
        self.refused
    }

    /// That TerminateTask is refused.
    pub fn refuse(&mut self)
        ensures { self.new ≡ record self.old { refused = true } }
    {
        self.refused = true;
    }

    /// The initialiser that it has to run next.
    pub fn next_later(&self) -> Option<Pair>
        ensures { result ≡ slice_get self.now.later 0 }
    {
        self.later.last().copied()
    }

    /// Takes that initialiser away.
    pub fn take_later(&mut self)
        ensures { self.new ≡ record self.old { later = drop 1 self.old.later } }
    {
        self.later.pop();
    }

    /// Calls a method on so many operands of the innermost frame, which goes on at this instruction then. Without memory
    /// all is as it was.
    pub fn call(
        &mut self,
        alloc: Global,
        program: &Program<'_>,
        next: usize,
        id: MethodId,
        count: usize,
    ) -> Result<(), NoMemory>
        ensures ok { OnOk result (self.new ≡ called program.now self.old next id count) }
        ensures err { OnErr result (self.new ≡ self.old) }
    {
        self.below.reserve(1)?;
        let Some(caller) = &mut self.top else {
            return Ok(());
        };
        let Some(inner) = program.callee(alloc, caller, id, count)? else {
            return Ok(());
        };
        caller.next = next;
        if let Some(caller) = self.top.replace(inner) {
            self.below.push_reserved(caller);
        }
        Ok(())
    }

    /// Hands the answer of the innermost frame to its caller, which is the innermost one from now on. Without memory all is
    /// as it was.
    pub fn hand_over(&mut self, answer: Option<Value>) -> Result<(), NoMemory>
        ensures ok { OnOk result (self.new ≡ handed_over answer self.old) }
        ensures err { OnErr result (self.new ≡ self.old) }
    {
        let Some(mut caller) = self.below.pop() else {
            self.top = None;
            return Ok(());
        };
        if let Err(error) = give(&mut caller, answer) {
            self.below.push_reserved(caller);
            return Err(error);
        }
        self.top = Some(caller);
        Ok(())
    }

    /// The innermost frame goes on at this instruction.
    pub fn advance(&mut self, next: usize)
        ensures { self.new ≡ advanced next self.old }
    {
        if let Some(frame) = &mut self.top {
            frame.next = next;
        }
    }

    /// The innermost frame goes on at this instruction, with an answer in place of its topmost operand.
    pub fn resume(&mut self, next: usize, answer: Value)
        requires { HasTop self.old.frames }
        ensures { self.new ≡ answered_by next answer self.old }
    {
        if let Some(frame) = &mut self.top {
            frame.values.operands.replace(1, answer);
            frame.next = next;
        }
    }

    /// The innermost frame without its topmost operand.
    pub fn untop(&mut self)
        ensures { self.new ≡ untopped self.old }
    {
        if let Some(frame) = &mut self.top {
            frame.values.discard(1);
        }
    }
}
