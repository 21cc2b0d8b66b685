// What looks for a plan, and a plan. They change into one another by being moved; neither can be copied, and nobody outside
// can make one or look inside.
ghost use Rattle.std.specs.Prelude.{◌<◌, ◌≤◌};

use trails::{Settled, Standing};

// What looks for a plan. It was begun with no more than 4,096 places.
#[derive(Drop)]
pub struct Search<S, R> {
    pub(crate) standing: Standing<S, R>,
    ghost few: { standing.places ≤ 4096 },
}

// A plan: a used place of the table, whose trail was the best open one, at the goal, when it was settled.
#[derive(Drop)]
pub struct Plan<S, R> {
    pub(crate) settled: Settled<S, R>,
    ghost few: { settled.standing.places ≤ 4096 },
    ghost found: { settled.place < settled.standing.used },
}
