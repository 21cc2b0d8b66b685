// The guide of a motif.
ghost use Rattle.std.specs.Prelude.{◌≡◌};
ghost use Rattle.trails.specs.Repertoires.{held_by, guide_at};

use repertoire::Repertoire;
use scale::Scale;

// What the guide says of a motif; nothing remains where it says nothing.
pub fn guide_of<S: Scale>(repertoire: Repertoire<'_, S>, motif: u16) -> S
    ensures { result ≡ guide_at S.Scale (held_by repertoire.entry) motif }
{
    repertoire
        .guides
        .get(usize::from(motif))
        .copied()
        .unwrap_or(S::neutral())
}
