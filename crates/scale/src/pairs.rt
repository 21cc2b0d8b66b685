// Two scales as one, the first before the second.
#[derive(Clone, Copy, PartialEq, Eq)]
pub struct Pair<A, B> {
    pub first: A,
    pub second: B,
}
