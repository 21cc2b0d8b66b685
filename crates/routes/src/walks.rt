// A walk back along the parents.
ghost use Rattle.std.specs.Iterator.{YieldsFirst, at_most};
ghost use Rattle.routes.specs.Walks.{LeadsBack, links_back};

use scale::Scale;
use trails::Trail;

// The links of the path of the trail at a place, last to first.
#[derive(Drop)]
pub struct LinksBack<'a, S> {
    pub trails: &'a [Trail<S>],
    pub at: usize,
}

impl<S: Scale> Iterator for LinksBack<'_, S> {
    type Item = u16;

    ghost can_next = { λ walk. LeadsBack S.Scale walk.trails.now walk.at };

    ghost next_gives = { YieldsFirst (λ walk. links_back S.Scale walk.trails.now walk.at) };

    ghost remaining = { λ walk. at_most walk.at };

    fn next(&mut self) -> Option<u16> {
        if self.at == 0 {
            return None;
        }
        let trail = self.trails[self.at];
        self.at = usize::from(trail.parent);
        Some(trail.link)
    }
}
