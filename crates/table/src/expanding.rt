// A trail is expanded: every link that leaves its motif is tried.
ghost use Rattle.std.specs.Prelude.{◌≡◌, ◌+◌, ◌<◌, ◌≤◌, length};
ghost use Rattle.trails.specs.Repertoires.{held_by, link_count, leaving_count};
ghost use Rattle.trails.specs.Tables.{tabled, trail_at};
ghost use Rattle.trails.specs.Expanding.{expanded};
ghost use Rattle.table.specs.Numbers.{most_numbers};

use super::trying::try_trail;
use repertoire::Repertoire;
use scale::Scale;
use trails::{State, Trail};

// The trail at the place becomes done, and each link that leaves its motif makes a new trail, which is tried. Says how
// many places are used then.
pub fn expand<S: Scale>(
    repertoire: Repertoire<'_, S>,
    trails: &mut [Trail<S>],
    used: usize,
    place: usize,
) -> usize
    requires there { place < used }
    requires room { used + leaving_count (held_by repertoire) (trail_at S.Scale trails.old place).motif ≤ length trails.old }
    requires places { length trails.old ≤ most_numbers }
    requires links { link_count (held_by repertoire) ≤ most_numbers }
    ensures value { tabled trails.new result ≡ expanded S.Scale (held_by repertoire.entry) place (tabled trails.old used) }
    ensures grown { used ≤ result }
    ensures within { result ≤ length trails.new }
{
    let from = trails[place];
    trails[place] = Trail {
        state: State::Done,
        ..from
    };
    let mut n = used;
    for (k, link) in repertoire.links.iter().enumerate() {
        if link.from == from.motif {
            let new = Trail {
                motif: link.to,
                parent: place as u16,
                link: k as u16,
                cost: from.cost.join(link.cost),
                state: State::Open,
            };
            n = try_trail(trails, n, new);
        }
    }
    n
}
