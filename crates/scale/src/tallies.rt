// A total that stops at the top of its range, as the number of picks.
#[derive(Clone, Copy, PartialEq, Eq, PartialOrd, Ord)]
pub struct Tally {
    pub value: u32,
}
