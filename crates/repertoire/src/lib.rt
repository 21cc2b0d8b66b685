// What the mill office keeps: links between motifs, the header that counts the motifs, both with the guide as one
// repertoire, and the refusals, each with its number.
#![tactic(auto)]

ghost use Rattle.std.specs.Prelude.{◌≡◌, count_by};
ghost use Rattle.repertoire.specs.Links.{leaves, reaches};

mod headers;
mod links;
mod refusals;
mod repertoires;

pub use headers::Header;
pub use links::Link;
pub use refusals::Refusal;
pub use repertoires::Repertoire;

// How many links leave a motif.
pub fn leaving<S>(links: &[Link<S>], motif: u16) -> usize
    ensures { result ≡ count_by (leaves motif) links.now }
{
    links.iter().filter(|link| link.from == motif).count()
}

// How many links reach a motif.
pub fn reaching<S>(links: &[Link<S>], motif: u16) -> usize
    ensures { result ≡ count_by (reaches motif) links.now }
{
    links.iter().filter(|link| link.to == motif).count()
}
