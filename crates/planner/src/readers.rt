// What can be read of a plan and of what looks for one.
ghost use Rattle.std.specs.Prelude.{◌≡◌};

use super::{Plan, Search};
use scale::Scale;

impl<S: Scale, R> Search<S, R> {
    // How many places of the table are used.
    pub fn used(&self) -> u16
        ensures { result ≡ self.now.standing.used }
    {
        self.standing.used
    }
}

impl<S: Scale, R> Plan<S, R> {
    // What the plan costs.
    pub fn cost(&self) -> S
        ensures { result ≡ self.now.settled.cost }
    {
        self.settled.cost
    }

    // The held set of that cost.
    pub fn held_set(&self) -> u8
        ensures { result ≡ self.now.settled.held }
    {
        self.settled.held
    }

    // How many places of the table are used.
    pub fn used(&self) -> u16
        ensures { result ≡ self.now.settled.standing.used }
    {
        self.settled.standing.used
    }
}
