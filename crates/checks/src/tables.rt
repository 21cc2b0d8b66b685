// The checks of a table: to begin with, and to go on with beside what was begun.
ghost use Rattle.std.specs.Prelude.{◌≡◌, ◌≤◌, length};
ghost use Rattle.trails.specs.Checks.{first_failing, begin_checks, call_checks, is_same_repertoire, is_same_table};
ghost use Rattle.trails.specs.Repertoires.{held_by};
ghost use Rattle.checks.specs.Answers.{checked, is_right, all_right};

use super::repertoires::{check_repertoire, ensure, is_count};
use repertoire::{Refusal, Repertoire};
use scale::Scale;
use trails::{Standing, Trail};

// The most places that the planner takes.
const MOST_PLACES: usize = 4096;

// What is wrong with what is begun with, if anything.
pub fn check_begin<S: Scale>(
    repertoire: Repertoire<'_, S>,
    trails: &[Trail<S>],
) -> Result<(), Refusal>
    ensures { result ≡ checked (first_failing (begin_checks S.Scale (held_by repertoire.entry) trails.now)) }
{
    check_repertoire(repertoire)?;
    ensure(
        is_count(MOST_PLACES, trails.len()),
        Refusal::WrongTableLength,
    )
}

// Whether the repertoire has the counts and ends that were begun with.
fn is_same_repertoire<S: Scale, R>(repertoire: Repertoire<'_, S>, standing: &Standing<S, R>) -> bool
    ensures { result ≡ is_same_repertoire S.Scale (held_by repertoire.entry) standing.now }
{
    repertoire.header == standing.header && repertoire.links.len() == usize::from(standing.links)
}

// Whether a trail is right at that place.
fn is_right<S: Scale>(repertoire: Repertoire<'_, S>, trail: Trail<S>, place: usize) -> bool
    ensures { result ≡ is_right S.Scale (held_by repertoire.entry) trail place }
{
    if trail.motif >= repertoire.header.motifs {
        return false;
    }
    if place == 0 {
        return trail.parent == 0;
    }
    usize::from(trail.link) < repertoire.links.len() && usize::from(trail.parent) < place
}

// Whether all places of a row are right.
fn all_right<S: Scale>(repertoire: Repertoire<'_, S>, used: &[Trail<S>]) -> bool
    ensures { result ≡ all_right S.Scale (held_by repertoire.entry) used.now (length used.now) }
{
    used.iter()
        .enumerate()
        .all(|(place, trail)| is_right(repertoire, *trail, place))
}

// Whether the table has the length that was begun with, and its used places are there and right.
fn is_same_table<S: Scale, R>(
    repertoire: Repertoire<'_, S>,
    standing: &Standing<S, R>,
    trails: &[Trail<S>],
) -> bool
    ensures { result ≡ is_same_table S.Scale (held_by repertoire.entry) standing.now trails.now }
{
    let used = usize::from(standing.used);
    trails.len() == usize::from(standing.places)
        && used <= trails.len()
        && all_right(repertoire, &trails[..used])
}

// What is wrong with what a call is given, if anything.
pub fn check_call<S: Scale, R>(
    repertoire: Repertoire<'_, S>,
    standing: &Standing<S, R>,
    trails: &[Trail<S>],
) -> Result<(), Refusal>
    ensures { result ≡ checked (first_failing (call_checks S.Scale (held_by repertoire.entry) standing.now trails.now)) }
{
    check_repertoire(repertoire)?;
    ensure(
        is_same_repertoire(repertoire, standing),
        Refusal::AnotherRepertoire,
    )?;
    ensure(
        is_same_table(repertoire, standing, trails),
        Refusal::AnotherTable,
    )
}
