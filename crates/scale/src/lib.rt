// What a scale is, with its laws; the simple scales in which weaving is measured; pairs of scales; the weave pile and the
// harness pile.
#![tactic(auto)]

ghost use Rattle.std.specs.Prelude.{◌≡◌};
ghost use Rattle.scale.specs.Shapes.{held_set, HoldsAll};
ghost use Rattle.scale.specs.Weave.{woven, harnessed};
ghost use Rattle.scale.specs.Yarns.{has_yarn};

mod grade_scale;
mod grades;
mod pair_scale;
mod pairs;
mod peak_scale;
mod peaks;
mod scales;
mod simple_scale;
mod simples;
mod tallies;
mod tally_scale;
mod yarn_scale;
mod yarns;

pub use grades::Grade;
pub use pairs::Pair;
pub use peaks::Peak;
pub use scales::Scale;
pub use simples::Simple;
pub use tallies::Tally;
pub use yarns::YarnSet;

// What weaving costs: the longest float, the yarns used and the picks, in that order.
pub type WeaveCost = Pair<Peak, Pair<YarnSet, Tally>>;

// What a change of harness costs: the grade of the work and the hooks retied, in that order.
pub type HarnessCost = Pair<Grade, Tally>;

impl YarnSet {
    // Whether the yarn of that number is in the set; there are yarns 0 to 31.
    pub fn has(self, yarn: u32) -> bool
        ensures { result ≡ has_yarn self yarn }
    {
        yarn < 32 && (self.bits >> yarn) % 2 == 1
    }
}

// The weave cost of these three numbers.
pub fn weave_cost(float: u16, yarns: u32, picks: u32) -> WeaveCost
    ensures { result ≡ woven float yarns picks }
{
    Pair {
        first: Peak { value: float },
        second: Pair {
            first: YarnSet { bits: yarns },
            second: Tally { value: picks },
        },
    }
}

// The harness cost of a grade and a number.
pub fn harness_cost(work: Grade, hooks: u32) -> HarnessCost
    ensures { result ≡ harnessed work hooks }
{
    Pair {
        first: work,
        second: Tally { value: hooks },
    }
}

// The held set of a cost, of which is promised, for every scale, that a cost no worse than another holds every limit that
// the other holds.
pub fn held_set<S: Scale>(limits: S, cost: S) -> u8
    ensures value { result ≡ held_set S.Scale.shape limits cost }
    ensures grows { HoldsAll S.Scale.no_worse S.Scale.shape }
{
    cost.held(limits)
}
