// The calls on a plan.
ghost use Rattle.std.specs.Prelude.{◌≡◌};
ghost use Rattle.trails.specs.Calls as calls;
ghost use Rattle.trails.specs.Repertoires.{held_by};

use super::{Plan, Search};
use checks::check_call;
use repertoire::{Refusal, Repertoire};
use routes::{route_length, write_route};
use scale::Scale;
use trails::Trail;

impl<S: Scale, R> Plan<S, R> {
    // Looks for a plan again, under new limits.
    pub fn reopen(self, limits: S) -> Search<S, R>
        ensures { result.standing ≡ calls.reopen self.settled limits }
    {
        let Plan { settled } = self;
        let mut standing = settled.standing;
        standing.preference.limits = limits;
        Search { standing }
    }

    // Writes the numbers of the plan's links, first to last, at the front of the buffer, and answers how many.
    pub fn route(
        &self,
        repertoire: Repertoire<'_, S>,
        trails: &[Trail<S>],
        links: &mut [u16],
    ) -> Result<usize, Refusal>
        ensures { calls.route S.Scale (held_by repertoire.entry) self.now.settled trails.now links.old ≡ record { answer = result; buffer = links.new } }
    {
        check_call(repertoire, &self.settled.standing, trails)?;
        let place = usize::from(self.settled.place);
        let count = route_length(trails, place);
        if count > links.len() {
            return Err(Refusal::RouteTooLong);
        }
        write_route(trails, place, count, links);
        Ok(count)
    }
}
