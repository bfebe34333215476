ghost use Rattle.std.specs.Prelude.{◌≡◌, ◌≤◌};
ghost use Rattle.kes_outside.specs.CallCounts.{after_call, fails, no_calls};

use crate::count::one_more;
use std::marker::Model;

/// The calls of a double: which of them fail, and what has been counted.
#[derive(Debug, Drop)]
pub(crate) struct Calls {
    failing: Vec<u64>,
    next: u64,
    faults: u64,
}

impl Model for Calls {
    ghost use Rattle.kes_outside.specs.CallCounts.{CallCounts, call_counts_code};

    ghost Value = { CallCounts };

    ghost coded = { call_counts_code };

    ghost view = { λ c. record { failing = c.failing.items; next = c.next; faults = c.faults } };
}

impl Calls {
    /// No call yet; those whose numbers are listed will fail, counted from 0.
    pub(crate) fn new(failing: Vec<u64>) -> Calls
        ensures { result ≡ no_calls failing.items }
    {
        Calls {
            failing,
            next: 0,
            faults: 0,
        }
    }

    /// Counts one call, and says whether it is to fail. A list of a few numbers is searched from
    /// its front.
    pub(crate) fn begin(&mut self) -> bool
        ensures fails { result ≡ fails self.old }
        ensures counted { self.new ≡ after_call self.old }

        // A count in 64 bits, so that standing still at the last one is no fall.
        ensures never_falls { self.old.faults ≤ self.new.faults }
    {
        let is_failing = self.failing.contains(&self.next);
        self.next = one_more(self.next);
        if is_failing {
            self.faults = one_more(self.faults);
        }
        is_failing
    }
}
