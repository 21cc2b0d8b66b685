// A greatest value, as the longest float of a piece of cloth.
#[derive(Clone, Copy, PartialEq, Eq, PartialOrd, Ord)]
pub struct Peak {
    pub value: u16,
}
