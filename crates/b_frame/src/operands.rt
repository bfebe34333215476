//! The operands of a frame.

ghost use Rattle.std.specs.Prelude.{◌≡◌, ◌∷◌, ◌++◌, [], ◌+◌, ◌<◌, ◌≤◌, length, reverse, take, drop, slice_get, IfOk, OnOk, OnErr, MatchOption};

use std::alloc::{AllocError, Global};
use std::marker::Model;
use values::Value;

/// The operands, the last of which is the topmost. Contracts see them from the top. A long is one operand.
#[derive(Drop)]
pub struct Operands {
    values: Vec<Value>,
}

impl Model for Operands {
    ghost use Rattle.std.specs.Prelude.{List, reverse};
    ghost use Rattle.values.specs.declared.value.Value.{Value as Held};

    ghost Value = { List Held };

    ghost view = { λ o. reverse o.values.items };
}

impl Operands {
    /// No operands, with room for so many.
    pub fn with_room(alloc: Global, room: usize) -> Result<Operands, AllocError>
        ensures { IfOk result (λ made. made ≡ []) }
    {
        Ok(Operands {
            values: Vec::with_capacity(alloc, room)?,
        })
    }

    /// How many there are.
    pub fn len(&self) -> usize
        ensures { result ≡ length self.now }
    {
        self.values.len()
    }

    /// The operand that has so many above it.
    pub fn at(&self, depth: usize) -> Option<Value>
        ensures value { result ≡ slice_get self.now depth }
        ensures within { MatchOption result (length self.now ≤ depth) (λ _. depth < length self.now) }
    {
        let count = self.values.len();
        if depth < count {
            Some(self.values[count - 1 - depth])
        } else {
            None
        }
    }

    /// One more on the top.
    pub fn push(&mut self, value: Value) -> Result<(), AllocError>
        ensures ok { OnOk result (self.new ≡ value ∷ self.old) }
        ensures err { OnErr result (self.new ≡ self.old) }
    {
        self.values.push(value)?;
        Ok(())
    }

    /// The topmost, taken away.
    pub fn pop(&mut self) -> Option<Value>
        ensures { MatchOption result ((self.old ≡ []) × (self.new ≡ [])) (λ top. self.old ≡ top ∷ self.new) }
    {
        self.values.pop()
    }

    /// Without so many of the topmost; without all, where there are fewer.
    pub fn discard(&mut self, count: usize)
        ensures { self.new ≡ drop count self.old }
    {
        let kept = self.values.len().saturating_sub(count);
        self.values.truncate(kept);
    }

    /// A value in place of so many of the topmost.
    pub fn replace(&mut self, count: usize, value: Value)
        requires some { 0 < count }
        requires within { count ≤ length self.old }
        ensures { self.new ≡ value ∷ drop count self.old }
    {
        let last = self.values.len() - count;
        self.values.truncate(last + 1);
        self.values[last] = value;
    }

    /// Two values in place of the two topmost, the first on the top.
    pub fn replace_two(&mut self, first: Value, second: Value)
        requires { 2 ≤ length self.old }
        ensures { self.new ≡ first ∷ second ∷ drop 2 self.old }
    {
        let kept = self.values.len() - 2;
        self.values.truncate(kept);
        self.values.push_reserved(second);
        self.values.push_reserved(first);
    }

    /// A value below so many of the topmost.
    pub fn insert(&mut self, depth: usize, value: Value) -> Result<(), AllocError>
        requires { depth ≤ length self.old }
        ensures ok { OnOk result (self.new ≡ take depth self.old ++ value ∷ drop depth self.old) }
        ensures err { OnErr result (self.new ≡ self.old) }
    {
        let place = self.values.len() - depth;
        self.values.insert(place, value)?;
        Ok(())
    }

    /// Two values below so many of the topmost, the second under the first.
    pub fn insert_two(
        &mut self,
        depth: usize,
        first: Value,
        second: Value,
    ) -> Result<(), AllocError>
        requires { depth ≤ length self.old }
        ensures ok { OnOk result (self.new ≡ take depth self.old ++ first ∷ second ∷ drop depth self.old) }
        ensures err { OnErr result (self.new ≡ self.old) }
    {
        let place = self.values.len() - depth;
        self.values.reserve(2)?;
        self.values.insert(place, first)?;
        self.values.insert(place, second)?;
        Ok(())
    }

    /// So many of the topmost, the topmost last.
    pub fn topmost(&self, count: usize) -> Option<&[Value]>
        ensures { MatchOption result (length self.now < count) (λ tops. (count ≤ length self.now) × (tops.now ≡ reverse (take count self.now))) }
    {
        let all = self.values.len();
        if count <= all {
            Some(&self.values[all - count..])
        } else {
            None
        }
    }
}
