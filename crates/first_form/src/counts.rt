/// What a build counts.
#[derive(Clone, Copy, Debug, PartialEq, Eq)]
pub struct Summary {
    /// The pairs of a domain and a method that are reached.
    pub methods: u64,
    /// The possible failures of Null, Bounds, DivZero and NegativeSize with a check in the C.
    pub checks_kept: u64,
    /// Those without one.
    pub checks_removed: u64,
    /// The calls with exactly one target.
    pub direct_calls: u64,
}

/// What the first form counts.
pub const FIRST_SUMMARY: Summary = Summary {
    methods: 1,
    checks_kept: 0,
    checks_removed: 0,
    direct_calls: 0,
};
