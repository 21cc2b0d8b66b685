// Yarn sets as a scale: joining is union, no worse is contained in, and fewer yarns are liked.
ghost use Rattle.scale.specs.Measures.{no_yarns, together, within, no_more_yarns};
ghost use Rattle.scale.specs.YarnLaws.{yarns_fair};

use super::{Simple, YarnSet};

impl Simple for YarnSet {
    ghost neutral = { no_yarns };

    ghost joined = { together };

    ghost no_worse = { within };

    ghost liked = { no_more_yarns };

    ghost fair = { yarns_fair };

    fn neutral() -> YarnSet {
        YarnSet { bits: 0 }
    }

    fn join(self, next: YarnSet) -> YarnSet {
        YarnSet {
            bits: self.bits | next.bits,
        }
    }

    fn no_worse(self, other: YarnSet) -> bool {
        self.bits | other.bits == other.bits
    }

    fn likes(self, other: YarnSet) -> bool {
        self.bits.count_ones() <= other.bits.count_ones()
    }
}
