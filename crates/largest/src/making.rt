// What the largest repertoire and its table are made of.
ghost use Rattle.std.specs.Prelude.{◌≡◌};
ghost use Rattle.largest.specs.Making.{link_of, unused};

use repertoire::Link;
use scale::{WeaveCost, weave_cost};
use trails::{State, Trail};

// The link of that number. Eight links leave each motif.
pub fn link_of(number: u16) -> Link<WeaveCost>
    ensures { result ≡ link_of number }
{
    let from = number / 8;
    let float = number % 11;
    let yarns = u32::from(number % 61);
    let picks = u32::from(number % 17) + 5;
    Link {
        from,
        to: (from * 7 + number % 8 * 3 + 13) % 1024,
        cost: weave_cost(float, yarns, picks),
    }
}

// What stands at a place that is not used yet.
pub fn unused_place() -> Trail<WeaveCost>
    ensures { result ≡ unused }
{
    Trail {
        motif: 0,
        parent: 0,
        link: 0,
        cost: weave_cost(0, 0, 0),
        state: State::Dropped,
    }
}
