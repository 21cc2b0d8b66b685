// A trail's path read back along its parents: how many links it has, and their numbers put first to last.
#![tactic(auto)]

ghost use Rattle.std.specs.Prelude.{◌≡◌, ◌≤◌, ◌++◌, length, drop};
ghost use Rattle.trails.specs.Tables.{trail_path};
ghost use Rattle.routes.specs.Walks.{LeadsBack};

mod walks;

use scale::Scale;
use trails::Trail;
use walks::LinksBack;

// How many links the path of the trail at a place has, where parents are lower places.
pub fn route_length<S: Scale>(trails: &[Trail<S>], place: usize) -> usize
    requires { LeadsBack S.Scale trails.now place }
    ensures { result ≡ length (trail_path S.Scale trails.now place) }
{
    LinksBack { trails, at: place }.count()
}

// The links of that path, first to last, at the front of the buffer, which has room for so many.
pub fn write_route<S: Scale>(trails: &[Trail<S>], place: usize, count: usize, links: &mut [u16])
    requires leads { LeadsBack S.Scale trails.now place }
    requires counted { count ≡ length (trail_path S.Scale trails.now place) }
    requires room { count ≤ length links.old }
    ensures { links.new ≡ trail_path S.Scale trails.now place ++ drop count links.old }
{
    for (next, link) in (0..count).rev().zip(LinksBack { trails, at: place }) {
        links[next] = link;
    }
}
