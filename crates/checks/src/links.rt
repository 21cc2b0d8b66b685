// Links between motifs, and the guide along them.
ghost use Rattle.std.specs.Prelude.{◌≡◌, ◌&&◌};
ghost use Rattle.trails.specs.Checks.{is_motif, guide_ends, guide_suits};
ghost use Rattle.trails.specs.Repertoires.{held_by};
ghost use Rattle.checks.specs.Answers.{all_between, all_suited};

use repertoire::{Link, Repertoire};
use scale::Scale;
use trails::guide_of;

// Whether two numbers are motifs of the repertoire.
pub fn are_motifs<S: Scale>(repertoire: Repertoire<'_, S>, a: u16, b: u16) -> bool
    ensures { result ≡ (is_motif S.Scale (held_by repertoire.entry) a && is_motif S.Scale (held_by repertoire.entry) b) }
{
    let motifs = repertoire.header.motifs;
    a < motifs && b < motifs
}

// Whether all links are between motifs.
pub fn all_between<S: Scale>(repertoire: Repertoire<'_, S>) -> bool
    ensures { result ≡ all_between S.Scale (held_by repertoire.entry) }
{
    repertoire
        .links
        .iter()
        .all(|link| are_motifs(repertoire, link.from, link.to))
}

// Whether the guide of the goal says that nothing remains.
fn guide_ends<S: Scale>(repertoire: Repertoire<'_, S>) -> bool
    ensures { result ≡ guide_ends S.Scale (held_by repertoire.entry) }
{
    guide_of(repertoire, repertoire.header.goal).no_worse(S::neutral())
}

// Whether the guide suits a link.
fn guide_suits<S: Scale>(repertoire: Repertoire<'_, S>, link: Link<S>) -> bool
    ensures { result ≡ guide_suits S.Scale (held_by repertoire.entry) link }
{
    let rest = link.cost.join(guide_of(repertoire, link.to));
    guide_of(repertoire, link.from).no_worse(rest)
}

// Whether the guide suits all links.
fn all_suited<S: Scale>(repertoire: Repertoire<'_, S>) -> bool
    ensures { result ≡ all_suited S.Scale (held_by repertoire.entry) }
{
    repertoire
        .links
        .iter()
        .all(|link| guide_suits(repertoire, *link))
}

// Whether the guide ends at the goal and suits all links.
pub fn is_guided<S: Scale>(repertoire: Repertoire<'_, S>) -> bool
    ensures { result ≡ (guide_ends S.Scale (held_by repertoire.entry) && all_suited S.Scale (held_by repertoire.entry)) }
{
    guide_ends(repertoire) && all_suited(repertoire)
}
