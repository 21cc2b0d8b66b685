// What a simple scale is: values, how they join and how they compare. Its number of simple scales and its held sets are
// not for it to say.
ghost use Rattle.std.specs.Prelude.{◌≡◌, Bool};
ghost use Rattle.scale.specs.Laws.{Laws};

pub trait Simple: Copy {
    ghost neutral: { Self };

    ghost joined: { Self → Self → Self };

    ghost no_worse: { Self → Self → Bool };

    ghost liked: { Self → Self → Bool };

    fn neutral() -> Self
        ensures { result ≡ neutral };

    fn join(self, next: Self) -> Self
        ensures { result ≡ joined self next };

    fn no_worse(self, other: Self) -> bool
        ensures { result ≡ no_worse self other };

    fn likes(self, other: Self) -> bool
        ensures { result ≡ liked self other };

    ghost fair: { Laws neutral joined no_worse liked };
}
