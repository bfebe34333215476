ghost use Rattle.std.specs.Prelude.{◌≡◌, ◌||◌, [], not, IfOk, OnOk};
ghost use Rattle.std.specs.List.{list_any};
ghost use Rattle.classfile.specs.Numbers.{Numbered, is_same_number, is_numbered, is_among, numbered};

use crate::numbers::Numbers;
use crate::pool::Pool;
use crate::uses::Use;
use kes_text::NoMemory;
use std::alloc::Global;
use std::collections::BTreeSet;
use std::marker::Model;

/// Members that have been passed over, by whether they are methods and by the numbers of their name and
/// their descriptor. Contracts see which of these are among them.
#[derive(Drop)]
pub struct Seen {
    members: BTreeSet<(bool, usize, usize)>,
}

impl Model for Seen {
    ghost use Rattle.std.specs.Prelude.{List};
    ghost use Rattle.classfile.specs.Numbers.{Numbered};

    ghost Value = { List Numbered };

    ghost view = { λ s. s.members.keys };
}

impl Seen {
    pub fn new(alloc: Global) -> Seen
        ensures { result ≡ [] }
    {
        Seen {
            members: BTreeSet::new(alloc),
        }
    }

    /// One more member; whether it is new.
    fn insert(&mut self, member: (bool, usize, usize)) -> Result<bool, NoMemory>
        ensures added { IfOk result (λ added. added ≡ not (list_any (is_same_number member) self.old)) }
        ensures members { OnOk result ((one : Numbered) → list_any (is_same_number one) self.new ≡ (is_same_number member one || list_any (is_same_number one) self.old)) }
    {
        Ok(self.members.insert(member)?)
    }

    /// One more use; whether it is no member that has been passed over.
    pub fn note(&mut self, pool: &Pool<'_>, numbers: &Numbers, one: Use) -> Result<bool, NoMemory>
        ensures fresh { IfOk result (λ fresh. fresh ≡ not (is_among self.old (numbered pool.now numbers.now one))) }
        ensures members { OnOk result ((other : Numbered) → list_any (is_same_number other) self.new ≡ (is_numbered other (numbered pool.now numbers.now one) || list_any (is_same_number other) self.old)) }
    {
        let Use::Member {
            is_method,
            name,
            descriptor,
            ..
        } = one
        else {
            return Ok(true);
        };
        if pool.text(name).is_none() || pool.text(descriptor).is_none() {
            return Ok(true);
        }
        self.insert((is_method, numbers.get(name), numbers.get(descriptor)))
    }
}
