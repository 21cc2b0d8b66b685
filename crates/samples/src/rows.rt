// The rows of the samples.
ghost use Rattle.std.specs.Prelude.{◌≡◌};
ghost use Rattle.trails.specs.Samples.{sheet, change, left_over};

use repertoire::Link;
use scale::{Grade, HarnessCost, Scale, WeaveCost, harness_cost, weave_cost};
use trails::{State, Trail};

// One motif may follow another, at a cost.
fn link<S: Copy>(from: u16, to: u16, cost: S) -> Link<S>
    ensures { result ≡ record { from = from; to = to; cost = cost } }
{
    Link { from, to, cost }
}

// The links of the sample sheet.
pub fn sheet_links() -> [Link<WeaveCost>; 4]
    ensures { result ≡ sheet.links }
{
    [
        link(0, 1, weave_cost(4, 1, 30)),
        link(0, 1, weave_cost(6, 1, 10)),
        link(1, 2, weave_cost(3, 2, 15)),
        link(1, 0, weave_cost(0, 0, 0)),
    ]
}

// The links of a change of harness.
pub fn change_links() -> [Link<HarnessCost>; 3]
    ensures { result ≡ change.links }
{
    [
        link(0, 2, harness_cost(Grade::Large, 10)),
        link(0, 1, harness_cost(Grade::Small, 40)),
        link(1, 2, harness_cost(Grade::Medium, 40)),
    ]
}

// What a place of a table holds until it is used: no call reads it.
pub fn unused_place<S: Scale>() -> Trail<S>
    ensures { result ≡ left_over S.Scale }
{
    Trail {
        motif: 2,
        parent: 9,
        link: 9,
        cost: S::neutral(),
        state: State::Open,
    }
}
