// A new trail comes to the table.
ghost use Rattle.std.specs.Prelude.{◌≡◌, ◌+◌, ◌<◌, ◌≤◌, length};
ghost use Rattle.trails.specs.Tables.{tabled};
ghost use Rattle.trails.specs.Expanding.{tried};

use super::dropping::drop_beaten;
use super::withstanding::is_withstood;
use scale::Scale;
use trails::Trail;

// Discards the new trail where one withstands it. Otherwise drops those that yield to it and puts it at the next place.
// Says how many places are used then.
pub fn try_trail<S: Scale>(trails: &mut [Trail<S>], used: usize, new: Trail<S>) -> usize
    requires { used < length trails.old }
    ensures value { tabled trails.new result ≡ tried S.Scale new (tabled trails.old used) }
    ensures grown { used ≤ result }
    ensures within { result ≤ used + 1 }
{
    if is_withstood(&trails[..used], new) {
        return used;
    }
    drop_beaten(&mut trails[..used], new);
    trails[used] = new;
    used + 1
}
