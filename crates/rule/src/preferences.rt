// Limits and a rule: what decides which of two costs is preferred.
ghost use Rattle.std.specs.Prelude.{◌≡◌};
ghost use Rattle.rule.specs.Preferred.{Orders};

use super::{Rule, Verdict};
use scale::Scale;

#[derive(Drop)]
pub struct Preference<S, R> {
    pub limits: S,
    pub rule: R,
}

impl<S: Scale, R: Rule> Preference<S, R> {
    ghost use Rattle.rule.specs.Preferences.{preferred_by};

    // Whether the first cost is preferred to the second.
    pub fn prefers(&self, first: S, second: S) -> bool
        ensures value { result ≡ preferred_by S.Scale R.Rule self.now first second }
        ensures orders { Orders S.Scale (R.Rule.better self.now.rule) self.now.limits }
    {
        match self
            .rule
            .compare(first.held(self.limits), second.held(self.limits))
        {
            Verdict::First => true,
            Verdict::Second => false,
            Verdict::Equal => !second.likes(first),
        }
    }
}
