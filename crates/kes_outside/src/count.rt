ghost use Rattle.std.specs.Prelude.{◌≡◌};
ghost use Rattle.kes_outside.specs.Count.{one_more};

/// One more, or the same at the last number of 64 bits.
pub(crate) fn one_more(count: u64) -> u64
    ensures { result ≡ one_more count }
{
    count.saturating_add(1)
}
