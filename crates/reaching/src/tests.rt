ghost use Rattle.std.specs.Prelude.{◌≡◌, ◌∷◌, [], Ok};
ghost use Rattle.kes_text.specs.declared.refusal.Kind.TheVariants.{Large};
ghost use Rattle.kes_text.specs.declared.refusal.Stop.TheVariants.{Refused};

use crate::explored::{MOST, explore};
use crate::graph::{Graph, Mention};
use crate::pair::Pair;
use jworld::{ClassId, MethodId};
use kes_text::{Kind, Refusal, Stop};
use sqlite_items::Items;
use std::alloc::Global;
use std::test::Fail;

fn pair(domain: u32, n: u16) -> Pair
    ensures { result ≡ record { domain = domain; method = record { class = record { n = 4 }; n = n } } }
{
    let class = ClassId { n: 4 };
    let method = MethodId { class, n };
    Pair { domain, method }
}

/// Each pair mentions the first method of domain 1, and has this size.
#[derive(Clone, Copy)]
struct Star {
    size: u64,
}

impl Graph for Star {
    ghost mentions = { λ star one. Ok (record { pairs = record { domain = 1; method = record { class = record { n = 4 }; n = 0 } } ∷ []; size = star.size }) };

    ghost too_large = { λ star one. Refused (record { file = 0; kind = Large; at = 7 }) };

    fn mentioned(&self, alloc: Global, _one: Pair) -> Result<Mention, Stop> {
        Ok(Mention {
            pairs: Items::from_slice(alloc, &[pair(1, 0)])?,
            size: self.size,
        })
    }

    fn large(&self, _one: Pair) -> Stop {
        Stop::Refused(Refusal {
            file: 0,
            kind: Kind::Large,
            at: 7,
        })
    }
}

#[test]
fn roots_come_first_and_each_pair_once(rt: HostRuntime) -> Result<(), Fail> {
    let roots = [pair(0, 5), pair(0, 3), pair(0, 5)];
    let pairs = explore(rt.alloc(), &Star { size: 9 }, &roots)?;
    let expected = [pair(0, 5), pair(0, 3), pair(1, 0)];
    for (place, one) in expected.iter().enumerate() {
        assert_eq!(rt; pairs.get(place), Some(*one));
    }
    assert_eq!(rt; pairs.get(3), None);
    Ok(())
}

#[test]
fn the_sum_of_the_sizes_is_bounded(rt: HostRuntime) -> Result<(), Fail> {
    let roots = [pair(0, 5)];
    let half = Star { size: MOST / 2 };
    assert!(rt; explore(rt.alloc(), &half, &roots).is_ok());
    let more = Star { size: MOST / 2 + 1 };
    match explore(rt.alloc(), &more, &roots) {
        Err(Stop::Refused(fault)) => {
            assert_eq!(rt; (fault.kind, fault.at), (Kind::Large, 7));
        }
        _ => assert!(rt; false),
    }
    Ok(())
}
