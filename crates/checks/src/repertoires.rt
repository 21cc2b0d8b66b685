// The check of a repertoire and its pile.
ghost use Rattle.std.specs.Prelude.{◌≡◌, cond, Ok, Err};
ghost use Rattle.trails.specs.Checks.{first_failing, repertoire_checks};
ghost use Rattle.trails.specs.Repertoires.{held_by};
ghost use Rattle.checks.specs.Answers.{checked, is_count};

use super::links::{all_between, are_motifs, is_guided};
use repertoire::{Refusal, Repertoire};
use scale::Scale;

// The most motifs that the planner takes.
const MOST_MOTIFS: usize = 1024;

// The most links that it takes.
const MOST_LINKS: usize = 8192;

// The most simple scales that a pile may have.
const MOST_SCALES: u8 = 8;

// Whether a number is above 0 and at most the greatest.
pub fn is_count(most: usize, n: usize) -> bool
    ensures { result ≡ is_count most n }
{
    (1..=most).contains(&n)
}

// Refuses where a check doesn't pass.
pub fn ensure(passes: bool, refusal: Refusal) -> Result<(), Refusal>
    ensures { result ≡ cond passes (Ok tt) (Err refusal) }
{
    if passes { Ok(()) } else { Err(refusal) }
}

// What is wrong with a repertoire or its pile, if anything.
pub fn check_repertoire<S: Scale>(repertoire: Repertoire<'_, S>) -> Result<(), Refusal>
    ensures { result ≡ checked (first_failing (repertoire_checks S.Scale (held_by repertoire.entry))) }
{
    let header = repertoire.header;
    let motifs = usize::from(header.motifs);
    ensure(is_count(MOST_MOTIFS, motifs), Refusal::WrongMotifCount)?;
    ensure(
        are_motifs(repertoire, header.start, header.goal),
        Refusal::UnknownEnd,
    )?;
    ensure(repertoire.links.len() <= MOST_LINKS, Refusal::TooManyLinks)?;
    ensure(all_between(repertoire), Refusal::UnknownMotif)?;
    ensure(repertoire.guides.len() == motifs, Refusal::WrongGuideCount)?;
    ensure(is_guided(repertoire), Refusal::GuideOverstates)?;
    ensure(S::parts() <= MOST_SCALES, Refusal::TooManyScales)
}
