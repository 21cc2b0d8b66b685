// A set of yarns out of 32: yarn i is in it where bit i is set.
#[derive(Clone, Copy, PartialEq, Eq)]
pub struct YarnSet {
    pub bits: u32,
}
