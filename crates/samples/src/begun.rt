// What is begun, and then run.
ghost use Rattle.std.specs.Prelude.{◌≡◌};
ghost use Rattle.trails.specs.Calls as calls;
ghost use Rattle.trails.specs.Repertoires.{held_by};
ghost use Rattle.samples.specs.Answers.{begun_stop, TellsBegunTrip};

use super::outcomes::{Stop, Trip};
use super::trips::{stop, trip};
use planner::begin;
use repertoire::{Refusal, Repertoire};
use rule::{Preference, Rule};
use scale::Scale;
use trails::Trail;

// Begins and runs.
pub fn begun_stop<S: Scale, R: Rule + Drop>(
    repertoire: Repertoire<'_, S>,
    preference: Preference<S, R>,
    trails: &mut [Trail<S>],
    budget: u16,
) -> Result<Stop, Refusal>
    ensures { begun_stop S.Scale R.Rule (held_by repertoire.entry) budget (calls.begin S.Scale (held_by repertoire.entry) preference.limits preference.rule trails.old) ≡ result }
{
    let mut looking = begin(repertoire, preference, trails)?;
    stop(&mut looking, repertoire, trails, budget)
}

// Begins, runs, settles, and asks the way.
pub fn begun_trip<S: Scale, R: Rule + Drop>(
    repertoire: Repertoire<'_, S>,
    preference: Preference<S, R>,
    trails: &mut [Trail<S>],
    budget: u16,
) -> Result<Trip<S, R>, Refusal>
    ensures { TellsBegunTrip S.Scale R.Rule (held_by repertoire.entry) budget (calls.begin S.Scale (held_by repertoire.entry) preference.limits preference.rule trails.old) trails.new result }
{
    let looking = begin(repertoire, preference, trails)?;
    trip(looking, repertoire, trails, budget)
}
