// The pair of any two scales as a scale.
ghost use Rattle.scale.specs.Pairs.{both_neutral, both_joined, both_no_worse, both_liked, both_shape};
ghost use Rattle.scale.specs.PairLaws.{pair_fair};
ghost use Rattle.std.specs.Prelude.{refl};

use super::{Pair, Scale};

impl<A: Scale, B: Scale> Scale for Pair<A, B> {
    ghost neutral = { both_neutral A.Scale B.Scale };

    ghost joined = { both_joined A.Scale B.Scale };

    ghost no_worse = { both_no_worse A.Scale B.Scale };

    ghost liked = { both_liked A.Scale B.Scale };

    ghost shape = { both_shape A.Scale B.Scale };

    ghost fair = { pair_fair (record { neutral = A.neutral; joined = A.joined; no_worse = A.no_worse; liked = A.liked; shape = A.shape }) (record { neutral = B.neutral; joined = B.joined; no_worse = B.no_worse; liked = B.liked; shape = B.shape }) A.fair B.fair };

    ghost shaped = { (A.Scale.no_worse, (B.Scale.no_worse, ((λ x y. refl), A.Scale.shaped, B.Scale.shaped))) };

    fn neutral() -> Pair<A, B> {
        Pair {
            first: A::neutral(),
            second: B::neutral(),
        }
    }

    fn join(self, next: Pair<A, B>) -> Pair<A, B> {
        Pair {
            first: self.first.join(next.first),
            second: self.second.join(next.second),
        }
    }

    fn no_worse(self, other: Pair<A, B>) -> bool {
        self.first.no_worse(other.first) && self.second.no_worse(other.second)
    }

    fn likes(self, other: Pair<A, B>) -> bool {
        if !self.first.likes(other.first) {
            return false;
        }
        !other.first.likes(self.first) || self.second.likes(other.second)
    }

    fn parts() -> u8 {
        9.min(A::parts().saturating_add(B::parts()))
    }

    fn held(self, limits: Pair<A, B>) -> u8 {
        let first = u32::from(self.first.held(limits.first));
        let second = u32::from(self.second.held(limits.second));
        let behind = second << A::parts();
        ((first + behind) & 0xff) as u8
    }
}
