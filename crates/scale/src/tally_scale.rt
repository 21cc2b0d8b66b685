// Tallies as a scale: joining adds and stops at the top, and less is better.
ghost use Rattle.scale.specs.Measures.{no_tally, summed, at_most_tally};
ghost use Rattle.scale.specs.TallyLaws.{tally_fair};

use super::{Simple, Tally};

impl Simple for Tally {
    ghost neutral = { no_tally };

    ghost joined = { summed };

    ghost no_worse = { at_most_tally };

    ghost liked = { at_most_tally };

    ghost fair = { tally_fair };

    fn neutral() -> Tally {
        Tally { value: 0 }
    }

    fn join(self, next: Tally) -> Tally {
        Tally {
            value: self.value.saturating_add(next.value),
        }
    }

    fn no_worse(self, other: Tally) -> bool {
        self <= other
    }

    fn likes(self, other: Tally) -> bool {
        self.no_worse(other)
    }
}
