// Whether a new trail is discarded.
ghost use Rattle.std.specs.Prelude.{◌≡◌};
ghost use Rattle.std.specs.List.{list_any};
ghost use Rattle.trails.specs.Expanding.{withstands};

use super::rivals::withstands;
use scale::Scale;
use trails::Trail;

// Whether some used trail withstands the new one.
pub fn is_withstood<S: Scale>(used: &[Trail<S>], new: Trail<S>) -> bool
    ensures { result ≡ list_any (withstands S.Scale new) used.now }
{
    used.iter().any(|trail| withstands(new, *trail))
}
