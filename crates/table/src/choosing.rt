// The best open trail.
ghost use Rattle.std.specs.Prelude.{◌≡◌, ◌<◌, length, cond, IfSome};
ghost use Rattle.rule.specs.Preferences.{preferred_by};
ghost use Rattle.trails.specs.Repertoires.{held_by};
ghost use Rattle.trails.specs.Tables.{is_open, tabled, estimate};
ghost use Rattle.trails.specs.Choosing.{best};
ghost use Rattle.table.specs.Chosen.{place_of, better_by};

use repertoire::Repertoire;
use rule::{Preference, Rule};
use scale::Scale;
use trails::{Trail, guide_of};

// The estimate of a trail: its cost, then the guide of its motif, which is neutral where there is none.
fn estimate_of<S: Scale>(repertoire: Repertoire<'_, S>, trail: Trail<S>) -> S
    ensures { result ≡ estimate S.Scale (held_by repertoire.entry) trail }
{
    trail.cost.join(guide_of(repertoire, trail.motif))
}

// The better of the best so far and the trail at a place: the former unless the latter is open and its estimate is
// preferred.
fn better_of<S: Scale, R: Rule>(
    repertoire: Repertoire<'_, S>,
    preference: &Preference<S, R>,
    best: Option<(usize, S)>,
    place: usize,
    trail: Trail<S>,
) -> Option<(usize, S)>
    ensures { result ≡ cond (is_open trail.state) (better_by (preferred_by S.Scale R.Rule preference.now) place (estimate S.Scale (held_by repertoire.entry) trail) best) best }
{
    if !trail.state.is_open() {
        return best;
    }
    let estimate = estimate_of(repertoire, trail);
    if best.is_none_or(|(_, its_estimate)| preference.prefers(estimate, its_estimate)) {
        Some((place, estimate))
    } else {
        best
    }
}

// The place of the best open trail among the used ones, if any is open.
pub fn best_open<S: Scale, R: Rule>(
    repertoire: Repertoire<'_, S>,
    preference: &Preference<S, R>,
    used: &[Trail<S>],
) -> Option<usize>
    ensures value { result ≡ place_of (best S.Scale (held_by repertoire.entry) (preferred_by S.Scale R.Rule preference.now) (tabled used.now (length used.now))) }
    ensures within { IfSome result (λ k. k < length used.now) }
{
    let mut best: Option<(usize, S)> = None;
    for (place, trail) in used.iter().enumerate() {
        best = better_of(repertoire, preference, best, place, *trail);
    }
    best.map(|(place, _)| place)
}
