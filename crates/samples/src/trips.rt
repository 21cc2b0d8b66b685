// Calls that follow one another, and what they are refused with.
ghost use Rattle.std.specs.Prelude.{◌≡◌, Some, None, Ok, Err};
ghost use Rattle.repertoire.specs.Numbers.{refusal_number};
ghost use Rattle.trails.specs.Calls as calls;
ghost use Rattle.trails.specs.Repertoires.{held_by};
ghost use Rattle.samples.specs.Answers.{run_in, TellsUsed, plan_in, settled_of, TellsWay, TellsTrip};

use super::outcomes::{Route, Stop, Trip, Way};
use planner::{Plan, Search};
use repertoire::{Refusal, Repertoire};
use rule::Rule;
use scale::Scale;
use trails::Trail;

// Runs, and tells how many places are used then.
pub fn stop<S: Scale, R: Rule>(
    looking: &mut Search<S, R>,
    repertoire: Repertoire<'_, S>,
    trails: &mut [Trail<S>],
    budget: u16,
) -> Result<Stop, Refusal>
    ensures run { calls.run S.Scale R.Rule (held_by repertoire.entry) budget looking.old.standing trails.old ≡ record { answer = run_in result; standing = looking.new.standing; trails = trails.new } }
    ensures used { TellsUsed looking.new.standing result }
{
    let run = looking.run(repertoire, trails, budget)?;
    let used = looking.used();
    Ok(Stop { run, used })
}

// The plan that lies ready; where none does, what looked for one is let go.
pub fn settled<S: Scale, R: Rule + Drop>(
    looking: Search<S, R>,
    repertoire: Repertoire<'_, S>,
    trails: &[Trail<S>],
) -> Result<Plan<S, R>, Refusal>
    ensures { plan_in (calls.settle S.Scale R.Rule (held_by repertoire.entry) looking.standing trails.now) ≡ settled_of result }
{
    looking
        .settle(repertoire, trails)
        .map_err(|(_looking, refusal)| refusal)
}

// What a plan costs and holds, and the way that it goes.
pub fn way<S: Scale, R>(
    plan: &Plan<S, R>,
    repertoire: Repertoire<'_, S>,
    trails: &[Trail<S>],
) -> Result<Way<S>, Refusal>
    ensures { TellsWay S.Scale (held_by repertoire.entry) plan.now.settled trails.now result }
{
    let mut links = [0; 4];
    let count = plan.route(repertoire, trails, &mut links)?;
    Ok(Way {
        cost: plan.cost(),
        held: plan.held_set(),
        route: Route { count, links },
    })
}

// Runs, settles, and asks the way.
pub fn trip<S: Scale, R: Rule + Drop>(
    mut looking: Search<S, R>,
    repertoire: Repertoire<'_, S>,
    trails: &mut [Trail<S>],
    budget: u16,
) -> Result<Trip<S, R>, Refusal>
    ensures { TellsTrip S.Scale R.Rule (held_by repertoire.entry) budget looking.standing trails.old trails.new result }
{
    let stop = stop(&mut looking, repertoire, trails, budget)?;
    let plan = settled(looking, repertoire, trails)?;
    let way = way(&plan, repertoire, trails)?;
    Ok(Trip { stop, way, plan })
}

// The number of a refusal, and nothing where there is none.
pub fn refused<T: Drop>(answer: Result<T, Refusal>) -> Option<u8>
    ensures { elim answer [ Ok x ↦ result ≡ None | Err why ↦ result ≡ Some (refusal_number why) ] }
{
    answer.err().map(Refusal::number)
}
