// A trail: a way from the start to a motif, told by its last link and by the place of the trail that it goes on from, its
// parent, with what it costs. Trails stand in a table, a row of places that is filled from place 0.
use super::State;

#[derive(Clone, Copy)]
pub struct Trail<S> {
    pub motif: u16,
    pub parent: u16,
    pub link: u16,
    pub cost: S,
    pub state: State,
}
