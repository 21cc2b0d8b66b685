// What one frame says, in numbers.
use repertoire::{Header, Link};
use scale::WeaveCost;

#[derive(Clone, Copy)]
pub enum Entry {
    Header(Header),
    Link(Link<WeaveCost>),
    // What is at least left from a motif to the goal; the n-th guide belongs to motif n.
    Guide(WeaveCost),
    // One limit for each part of a cost.
    Limits(WeaveCost),
    End,
}
