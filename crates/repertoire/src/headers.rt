// How many motifs a repertoire has, the motif on the loom and the motif ordered; motifs are numbered from 0.
#[derive(Clone, Copy, PartialEq, Eq)]
pub struct Header {
    pub motifs: u16,
    pub start: u16,
    pub goal: u16,
}
