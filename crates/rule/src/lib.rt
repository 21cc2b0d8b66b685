// Limits and rules: which of two costs is preferred.
#![tactic(auto)]

ghost use Rattle.std.specs.Prelude.{◌≡◌, true};
ghost use Rattle.rule.specs.Rules.{ladder, more};
ghost use Rattle.rule.specs.Samples.{YarnSample, RuleSample};
ghost use Rattle.rule.specs.RuleLaws.{ladder_sound, more_sound};

use std::cmp::Ordering;

mod preferences;
mod rules;
mod verdicts;

pub use preferences::Preference;
pub use rules::Rule;
pub use verdicts::Verdict;

// The lowest-numbered limit held by just one set decides for that set.
#[derive(Clone, Copy)]
pub struct Ladder;

// The set with more limits decides.
#[derive(Clone, Copy)]
pub struct Count;

impl Rule for Ladder {
    ghost better = { λ _. ladder 8 };

    ghost sound = { λ _. ladder_sound };

    fn compare(&self, first: u8, second: u8) -> Verdict {
        let apart = first ^ second;
        if apart == 0 {
            return Verdict::Equal;
        }
        if (first >> apart.trailing_zeros()) % 2 == 1 {
            Verdict::First
        } else {
            Verdict::Second
        }
    }
}

impl Rule for Count {
    ghost better = { λ _. more };

    ghost sound = { λ _. more_sound };

    fn compare(&self, first: u8, second: u8) -> Verdict {
        match first.count_ones().cmp(&second.count_ones()) {
            Ordering::Greater => Verdict::First,
            Ordering::Equal => Verdict::Equal,
            Ordering::Less => Verdict::Second,
        }
    }
}

// Two samples stand as checked facts about the definitions.
fn samples_stand() -> bool
    ensures value { result ≡ true }
    ensures yarns { YarnSample }
    ensures rules { RuleSample }
{
    true
}
