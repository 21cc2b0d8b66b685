// Grades as a scale: joining takes the later, and earlier is better.
ghost use Rattle.scale.specs.Measures.{later, at_most_grade};
ghost use Rattle.scale.specs.declared.grades.Grade.TheVariants.{Tiny};
ghost use Rattle.std.proofs.Common.{rules};

use super::{Grade, Simple};

impl Simple for Grade {
    ghost neutral = { Tiny };

    ghost joined = { later };

    ghost no_worse = { at_most_grade };

    ghost liked = { at_most_grade };

    ghost fair = { Prim.search rules };

    fn neutral() -> Grade {
        Grade::Tiny
    }

    fn join(self, next: Grade) -> Grade {
        self.max(next)
    }

    fn no_worse(self, other: Grade) -> bool {
        self <= other
    }

    fn likes(self, other: Grade) -> bool {
        self.no_worse(other)
    }
}
