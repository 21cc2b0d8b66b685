// A simple scale as a pile of one: its number of simple scales and its held sets.
ghost use Rattle.scale.specs.Shapes.Shape.{simple};
ghost use Rattle.std.proofs.Common.{rules};

use super::{Scale, Simple};

// A simple scale has one limit.
const ONE: u8 = 1;

impl<T: Simple> Scale for T {
    ghost neutral = { T.Simple.neutral };

    ghost joined = { T.Simple.joined };

    ghost no_worse = { T.Simple.no_worse };

    ghost liked = { T.Simple.liked };

    ghost shape = { simple T.Simple.no_worse };

    ghost fair = { Prim.search rules };

    ghost shaped = { Prim.search rules };

    fn neutral() -> T {
        <T as Simple>::neutral()
    }

    fn join(self, next: T) -> T {
        <T as Simple>::join(self, next)
    }

    fn no_worse(self, other: T) -> bool {
        <T as Simple>::no_worse(self, other)
    }

    fn likes(self, other: T) -> bool {
        <T as Simple>::likes(self, other)
    }

    fn parts() -> u8 {
        ONE
    }

    fn held(self, limits: T) -> u8 {
        u8::from(<T as Simple>::no_worse(self, limits))
    }
}
