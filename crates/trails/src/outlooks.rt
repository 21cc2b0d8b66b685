// What lies ahead of a table: how the best open trail stands, told by its place.
#[derive(Clone, Copy, PartialEq, Eq)]
pub enum Outlook {
    // No trail is open.
    NoneOpen,
    // The best open trail is at the goal.
    AtGoal(usize),
    // More links leave its motif than there are unused places.
    Cramped(usize),
    // It can be expanded.
    Roomy(usize),
}
