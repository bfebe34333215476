ghost use Rattle.std.specs.Prelude.{◌≡◌, Result};
ghost use Rattle.kes_text.specs.Answers.{OrNoMemory};
ghost use Rattle.kes_text.specs.declared.refusal.Stop.{Stop as Stopped};
ghost use Rattle.reaching.specs.declared.graph.Mention.{Mention as Mentioned};
ghost use Rattle.reaching.specs.declared.pair.Pair.{Pair as Method};

use crate::pair::Pair;
use kes_text::Stop;
use sqlite_items::Items;
use std::alloc::Global;

/// What a pair mentions, in the order in which it does.
#[derive(Drop)]
pub struct Mention {
    pub pairs: Items<Pair>,
    /// How many instructions and targets it has.
    pub size: u64,
}

/// What each pair mentions.
pub trait Graph {
    /// What a pair mentions, or why its method is refused.
    ghost mentions: { Self → Method → Result Mentioned Stopped };

    /// Why a pair is refused with which the sum of the sizes is too large.
    ghost too_large: { Self → Method → Stopped };

    fn mentioned(&self, alloc: Global, pair: Pair) -> Result<Mention, Stop>
        ensures { OrNoMemory result (mentions self.now pair) };

    fn large(&self, pair: Pair) -> Stop
        ensures { result ≡ too_large self.now pair };
}
