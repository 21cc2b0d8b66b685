// One motif may follow another, at a cost: motif `to` after motif `from`.
#[derive(Clone, Copy, PartialEq, Eq)]
pub struct Link<S> {
    pub from: u16,
    pub to: u16,
    pub cost: S,
}
