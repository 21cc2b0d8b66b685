// What states and endings mean, and that the answers of the calls mean what their other words say.
ghost use Rattle.std.specs.Prelude.{◌≡◌, true};
ghost use Rattle.trails.specs.Meanings.{OutlooksMean, EndingsMean};
ghost use Rattle.trails.specs.Steps.{ending_number};
ghost use Rattle.trails.specs.Tables.{is_open, is_live};

use super::{Ending, State};
use rule::Rule;
use scale::Scale;

impl State {
    // Whether a trail in this state may be chosen.
    pub fn is_open(self) -> bool
        ensures { result ≡ is_open self }
    {
        matches!(self, State::Open)
    }

    // Whether a trail in this state is compared with new ones.
    pub fn is_live(self) -> bool
        ensures { result ≡ is_live self }
    {
        matches!(self, State::Open | State::Done)
    }
}

impl Ending {
    // The number by which the ending is told; a run that is spent has none.
    pub fn number(self) -> Option<u8>
        ensures { result ≡ ending_number self }
    {
        match self {
            Ending::Plan => Some(1),
            Ending::NoWay => Some(2),
            Ending::Full => Some(3),
            Ending::Spent => None,
        }
    }
}

// For every scale and rule: the outlook names the best open trail and what stands in its way, and a run is spent exactly
// where it has made as many expansions as its budget.
pub fn answers_mean_what_they_say<S: Scale, R: Rule>() -> bool
    ensures value { result ≡ true }
    ensures outlooks { OutlooksMean S.Scale R.Rule }
    ensures endings { EndingsMean S.Scale R.Rule }
{
    true
}
