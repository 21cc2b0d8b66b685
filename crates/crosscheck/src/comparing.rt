// Two costs compared, at any pile of scales and by any rule.
ghost use Rattle.std.specs.Prelude.{◌≡◌};
ghost use Rattle.rule.specs.Preferences.{preferred_by};
ghost use Rattle.rule.specs.Soundness.{verdict};

use rule::{Preference, Rule, Verdict};
use scale::Scale;

// Which of two costs is preferred.
pub fn choice<S: Scale, R: Rule>(preference: &Preference<S, R>, first: S, second: S) -> Verdict
    ensures { result ≡ verdict (preferred_by S.Scale R.Rule preference.now first second) (preferred_by S.Scale R.Rule preference.now second first) }
{
    if preference.prefers(first, second) {
        return Verdict::First;
    }
    if preference.prefers(second, first) {
        Verdict::Second
    } else {
        Verdict::Equal
    }
}
