// The calls on what looks for a plan.
ghost use Rattle.std.specs.Prelude.{◌≡◌};
ghost use Rattle.scale.specs.Shapes.{held_set};
ghost use Rattle.trails.specs.Calls as calls;
ghost use Rattle.trails.specs.Repertoires.{held_by};
ghost use Rattle.trails.specs.Steps.{step_answer};
ghost use Rattle.planner.specs.Answers.{settled_in, settled_by, IsFound};

use super::running::run_on;
use super::stepping::advance;
use super::{Plan, Search};
use checks::check_call;
use repertoire::{Refusal, Repertoire};
use rule::Rule;
use scale::Scale;
use table::{TrailTable, outlook};
use trails::{Outlook, Run, Settled, Step, Trail};

// What a step answers for what lay ahead.
fn answer_of(outlook: Outlook) -> Result<Step, Refusal>
    ensures { result ≡ step_answer outlook }
{
    match outlook {
        Outlook::NoneOpen => Ok(Step::NoWay),
        Outlook::AtGoal(_) => Ok(Step::Plan),
        Outlook::Cramped(_) => Err(Refusal::TooFewPlaces),
        Outlook::Roomy(_) => Ok(Step::Expanded),
    }
}

impl<S: Scale, R: Rule> Search<S, R> {
    // Expands the best open trail, or says that there is no way or that a plan lies ready.
    pub fn step(
        &mut self,
        repertoire: Repertoire<'_, S>,
        trails: &mut [Trail<S>],
    ) -> Result<Step, Refusal>
        ensures { calls.step S.Scale R.Rule (held_by repertoire.entry) self.old.standing trails.old ≡ record { answer = result; standing = self.new.standing; trails = trails.new } }
    {
        check_call(repertoire, &self.standing, trails)?;
        let used = usize::from(self.standing.used);
        let mut table = TrailTable { trails, used };
        let outlook = advance(repertoire, &self.standing.preference, &mut table);
        self.standing.used = table.used as u16;
        answer_of(outlook)
    }

    // Steps until something ends it, or until it has made as many expansions as the budget says.
    pub fn run(
        &mut self,
        repertoire: Repertoire<'_, S>,
        trails: &mut [Trail<S>],
        budget: u16,
    ) -> Result<Run, Refusal>
        ensures { calls.run S.Scale R.Rule (held_by repertoire.entry) budget self.old.standing trails.old ≡ record { answer = result; standing = self.new.standing; trails = trails.new } }
    {
        check_call(repertoire, &self.standing, trails)?;
        let used = usize::from(self.standing.used);
        let mut table = TrailTable { trails, used };
        let run = run_on(repertoire, &self.standing.preference, &mut table, budget);
        self.standing.used = table.used as u16;
        Ok(run)
    }

    // Replaces all limits.
    pub fn relimit(&mut self, limits: S)
        ensures { self.new.standing ≡ calls.relimit self.old.standing limits }
    {
        self.standing.preference.limits = limits;
    }

    // The place of the plan that lies ready, if the best open trail is at the goal.
    fn ready(&self, repertoire: Repertoire<'_, S>, trails: &[Trail<S>]) -> Result<usize, Refusal>
        ensures value { calls.settle S.Scale R.Rule (held_by repertoire.entry) self.now.standing trails.now ≡ settled_by S.Scale self.now.standing trails.now result }
        ensures found { IsFound self.now.standing trails.now result }
    {
        check_call(repertoire, &self.standing, trails)?;
        let used = usize::from(self.standing.used);
        match outlook(repertoire, &self.standing.preference, trails, used) {
            Outlook::AtGoal(place) => Ok(place),
            _ => Err(Refusal::NotSettled),
        }
    }

    // The held set of a cost under the limits in force.
    fn held_set(&self, cost: S) -> u8
        ensures { result ≡ held_set S.Scale.shape self.now.standing.preference.limits cost }
    {
        cost.held(self.standing.preference.limits)
    }

    // Turns into a plan if the best open trail is at the goal, and otherwise gives itself back unchanged.
    pub fn settle(
        self,
        repertoire: Repertoire<'_, S>,
        trails: &[Trail<S>],
    ) -> Result<Plan<S, R>, (Search<S, R>, Refusal)>
        ensures { calls.settle S.Scale R.Rule (held_by repertoire.entry) self.standing trails.now ≡ settled_in result }
    {
        match self.ready(repertoire, trails) {
            Err(why) => Err((self, why)),
            Ok(place) => {
                let cost = trails[place].cost;
                let held = self.held_set(cost);
                let Search { standing } = self;
                Ok(Plan {
                    settled: Settled {
                        standing,
                        place: place as u16,
                        cost,
                        held,
                    },
                })
            }
        }
    }
}
