// What the calls answer.

// What a step found or did.
#[derive(Clone, Copy, PartialEq, Eq)]
pub enum Step {
    NoWay,
    Plan,
    Expanded,
}

// How a run ended.
#[derive(Clone, Copy, PartialEq, Eq)]
pub enum Ending {
    Plan,
    NoWay,
    Full,
    Spent,
}

// What a run answers: how many expansions it made, and how it ended.
#[derive(Clone, Copy, PartialEq, Eq)]
pub struct Run {
    pub expansions: u16,
    pub ending: Ending,
}
