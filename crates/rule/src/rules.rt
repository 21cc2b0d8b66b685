// What a rule is. A rule is a value, which may carry data of its own.
ghost use Rattle.std.specs.Prelude.{◌≡◌, ℕ, Bool};
ghost use Rattle.rule.specs.Soundness.{Sound, verdict};

use super::Verdict;

pub trait Rule {
    // Whether the first held set is better than the second.
    ghost better: { Self → ℕ → ℕ → Bool };

    fn compare(&self, first: u8, second: u8) -> Verdict
        ensures { result ≡ verdict (better self.now first second) (better self.now second first) };

    ghost sound: { (rule : Self) → Sound (better rule) };
}

// A rule that is lent is that rule.
impl<R: Rule> Rule for &R {
    ghost better = { λ rule. R.Rule.better rule.now };

    ghost sound = { λ rule. R.Rule.sound rule.now };

    fn compare(&self, first: u8, second: u8) -> Verdict {
        R::compare(self, first, second)
    }
}
