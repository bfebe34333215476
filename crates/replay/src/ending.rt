use kes_text::NoMemory;
use thiserror::Error;

/// Why a replay stopped on its way.
#[derive(Clone, Copy, Debug, PartialEq, Eq, Error)]
pub enum Ending {
    /// The output failed, and has counted it.
    #[error("the output did not take all lines")]
    OutputFailed,
    #[error("out of memory")]
    NoMemory,
}

impl From<NoMemory> for Ending {
    ghost use Rattle.std.specs.Prelude.{◌≡◌};
    ghost use Rattle.replay.specs.declared.ending.Ending.TheVariants.{NoMemory};

    ghost from_gives = { λ _ e. e ≡ NoMemory };

    fn from(_error: NoMemory) -> Self {
        Ending::NoMemory
    }
}
