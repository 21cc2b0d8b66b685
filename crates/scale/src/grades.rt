// How much work something is.
#[derive(Clone, Copy, PartialEq, Eq, PartialOrd, Ord)]
pub enum Grade {
    Tiny,
    Small,
    Medium,
    Large,
    Huge,
}
