// Peaks as a scale: joining takes the greater, and less is better.
ghost use Rattle.scale.specs.Measures.{no_peak, higher, at_most_peak};
ghost use Rattle.std.proofs.Common.{rules};

use super::{Peak, Simple};

impl Simple for Peak {
    ghost neutral = { no_peak };

    ghost joined = { higher };

    ghost no_worse = { at_most_peak };

    ghost liked = { at_most_peak };

    ghost fair = { Prim.search rules };

    fn neutral() -> Peak {
        Peak { value: 0 }
    }

    fn join(self, next: Peak) -> Peak {
        self.max(next)
    }

    fn no_worse(self, other: Peak) -> bool {
        self <= other
    }

    fn likes(self, other: Peak) -> bool {
        self.no_worse(other)
    }
}
