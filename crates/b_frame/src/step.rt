//! One instruction on its own frame.

ghost use Rattle.std.specs.Prelude.{◌≡◌, IfOk, OnErr};
ghost use Rattle.b_frame.specs.Stepped.{Shows};
ghost use Rattle.b_frame.specs.LocalStep.{local_step};

use crate::arithmetic::{one_number, two_numbers};
use crate::division::division;
use crate::forms::stack_form;
use crate::frame::Frame;
use crate::jumps::jump;
use crate::kind::{Kind, kind_of};
use crate::locals::load_or_store;
use crate::outcome::Outcome;
use jcode::Op;
use std::alloc::AllocError;

impl Frame {
    /// Executes an instruction, if it works on its own frame alone (JVMS SE 8, chapter 6). Where it fails or has no
    /// meaning, and without memory for a further operand, the frame is as it was.
    #[tactic(auto, unfolding(crate::specs::LocalStep::local_step))]
    pub fn local_step(&mut self, op: &Op) -> Result<Outcome, AllocError>
        ensures step { IfOk result (λ outcome. Shows (local_step op.now self.old) self.old outcome self.new) }
        ensures err { OnErr result (self.new ≡ self.old) }
    {
        match kind_of(op) {
            Kind::LoadOrStore => load_or_store(self, op),
            Kind::StackForm => stack_form(self, op),
            Kind::OneNumber => Ok(one_number(self, op)),
            Kind::TwoNumbers => Ok(two_numbers(self, op)),
            Kind::Division => Ok(division(self, op)),
            Kind::Branch => Ok(jump(self, op)),
            Kind::Other => Ok(Outcome::Undefined),
        }
    }
}
