// A repertoire as the mill office lends it: the header, the links in their row, and the guides, one cost a motif. The
// guide of a motif is a cost that is no worse than what remains from there to the goal.
use super::{Header, Link};

#[derive(Clone, Copy)]
pub struct Repertoire<'a, S> {
    pub header: Header,
    pub links: &'a [Link<S>],
    pub guides: &'a [S],
}
