// What becomes of the trails in the table when a new one comes.
ghost use Rattle.std.specs.Prelude.{◌≡◌, map};
ghost use Rattle.trails.specs.Expanding.{beside};

use super::rivals::yields;
use scale::Scale;
use trails::{State, Trail};

// Drops each used trail that yields to the new one. A trail is read field by field where it lies, and written whole.
pub fn drop_beaten<S: Scale>(used: &mut [Trail<S>], new: Trail<S>)
    ensures { used.new ≡ map (beside S.Scale new) used.old }
{
    for trail in used.iter_mut() {
        let motif = trail.motif;
        let parent = trail.parent;
        let link = trail.link;
        let cost = trail.cost;
        let state = trail.state;
        let read = Trail {
            motif,
            parent,
            link,
            cost,
            state,
        };
        if yields(new, read) {
            *trail = Trail {
                motif,
                parent,
                link,
                cost,
                state: State::Dropped,
            };
        }
    }
}
