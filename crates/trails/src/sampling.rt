// Samples.
ghost use Rattle.std.specs.Prelude.{◌≡◌, true};
ghost use Rattle.trails.specs.Samples.{Samples};

use rule::{Count, Ladder, Rule};
use scale::{HarnessCost, Scale, WeaveCost, YarnSet};

// The samples stand as checked facts about the definitions.
pub fn samples_stand() -> bool
    ensures value { result ≡ true }
    ensures samples { Samples ⟦<YarnSet as Scale>⟧ ⟦<WeaveCost as Scale>⟧ ⟦<HarnessCost as Scale>⟧ ⟦<Ladder as Rule>⟧ ⟦<Count as Rule>⟧ }
{
    true
}
