// What is known of the lines of a sheet that were looked at so far.
use frames::Kind;

#[derive(Clone, Copy, Default)]
pub struct Survey {
    // The number of the next line.
    pub line: usize,
    // The kind of the last frame.
    pub last: Option<Kind>,
    // The first frame of an unknown kind or a wrong length.
    pub unknown: Option<usize>,
    // The first frame that may not follow the one before.
    pub misplaced: Option<usize>,
    pub links: usize,
    pub guides: usize,
}
