// What the office is told of a sheet: an account of it, or why it is rejected.
use super::MOST_BYTES;
use repertoire::Refusal;
use sheet::{Contents, Fault};
use thiserror::Error;

// An accepted sheet.
#[derive(Clone, Copy)]
pub struct Account {
    pub contents: Contents,
    // How many links leave the motif on the loom.
    pub leaving: usize,
    // How many links reach the motif ordered.
    pub reaching: usize,
}

#[derive(Clone, Copy, Debug, Error)]
pub enum Rejection {
    #[error("The sheet is refused with number {}, at line {}: {}.", .0.refusal.number(), .0.line, .0.refusal)]
    Faulty(Fault),
    // Longer than a sheet may be, which is refused as a line that is not a frame.
    #[error("The sheet is refused with number {}: it is longer than {MOST_BYTES} bytes.", Refusal::NotAFrame.number())]
    TooLong,
}
