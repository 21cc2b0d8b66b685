// How a new trail compares with one that stands in the table.
ghost use Rattle.std.specs.Prelude.{◌≡◌};
ghost use Rattle.trails.specs.Expanding.{rivals, withstands, yields};

use scale::Scale;
use trails::Trail;

// Whether the two are compared at all: a live trail at the motif of the new one.
fn is_rival<S: Scale>(new: Trail<S>, t: Trail<S>) -> bool
    ensures { result ≡ rivals new t }
{
    t.state.is_live() && t.motif == new.motif
}

// Whether the new trail is discarded because of this one, which is no worse.
pub(crate) fn withstands<S: Scale>(new: Trail<S>, t: Trail<S>) -> bool
    ensures { result ≡ withstands S.Scale new t }
{
    is_rival(new, t) && t.cost.no_worse(new.cost)
}

// Whether this trail is dropped because of the new one, which is no worse.
pub(crate) fn yields<S: Scale>(new: Trail<S>, t: Trail<S>) -> bool
    ensures { result ≡ yields S.Scale new t }
{
    is_rival(new, t) && new.cost.no_worse(t.cost)
}
