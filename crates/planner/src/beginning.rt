// Begin.
ghost use Rattle.std.specs.Prelude.{◌≡◌};
ghost use Rattle.trails.specs.Calls as calls;
ghost use Rattle.trails.specs.Repertoires.{held_by};
ghost use Rattle.planner.specs.Answers.{standing_in, PromiseOf};

use super::Search;
use checks::check_begin;
use repertoire::{Refusal, Repertoire};
use rule::{Preference, Rule};
use scale::Scale;
use trails::{Standing, State, Trail};

// Begins with a repertoire, a preference and a lent table, whose first place gets the trail at the start. Of what it
// makes, and of any calls on it in any order, all is promised that `PromiseOf` says: plans are the best there are, nothing
// is forgotten, and the work is bounded.
pub fn begin<S: Scale, R: Rule + Drop>(
    repertoire: Repertoire<'_, S>,
    preference: Preference<S, R>,
    trails: &mut [Trail<S>],
) -> Result<Search<S, R>, Refusal>
    ensures value { calls.begin S.Scale (held_by repertoire.entry) preference.limits preference.rule trails.old ≡ record { answer = standing_in result; trails = trails.new } }
    ensures promise { PromiseOf S.Scale R.Rule (held_by repertoire.entry) result trails.new }
{
    check_begin(repertoire, trails)?;
    trails[0] = Trail {
        motif: repertoire.header.start,
        parent: 0,
        link: 0,
        cost: S::neutral(),
        state: State::Open,
    };
    Ok(Search {
        standing: Standing {
            header: repertoire.header,
            links: repertoire.links.len() as u16,
            places: trails.len() as u16,
            used: 1,
            preference,
        },
    })
}
