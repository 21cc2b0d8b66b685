// What a scale is, simple or a pair of scales.
ghost use Rattle.std.specs.Prelude.{◌≡◌, Bool};
ghost use Rattle.scale.specs.Laws.{Laws};
ghost use Rattle.scale.specs.Shapes.{Shape, parts_of, held_set, Shaped};

pub trait Scale: Copy {
    // The value that changes none.
    ghost neutral: { Self };

    // "This value, then the next."
    ghost joined: { Self → Self → Self };

    // Whether the first is no worse than the second.
    ghost no_worse: { Self → Self → Bool };

    // Whether the first is liked as well as the second.
    ghost liked: { Self → Self → Bool };

    // How the scale is made of simple scales.
    ghost shape: { Shape Self };

    fn neutral() -> Self
        ensures { result ≡ neutral };

    fn join(self, next: Self) -> Self
        ensures { result ≡ joined self next };

    fn no_worse(self, other: Self) -> bool
        ensures { result ≡ no_worse self other };

    fn likes(self, other: Self) -> bool
        ensures { result ≡ liked self other };

    // The number of simple scales, or 9 where there are more than 8.
    fn parts() -> u8
        ensures { result ≡ parts_of shape };

    // The held set of this cost: bit i is set where it holds limit i, for the first eight limits.
    fn held(self, limits: Self) -> u8
        ensures { result ≡ held_set shape limits self };

    ghost fair: { Laws neutral joined no_worse liked };

    ghost shaped: { Shaped no_worse shape };
}
