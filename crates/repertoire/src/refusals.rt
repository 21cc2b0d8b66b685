// Why a call did nothing: each refusal with the number under which it is listed.
ghost use Rattle.std.specs.Prelude.{◌≡◌};

use thiserror::Error;

#[derive(Clone, Copy, PartialEq, Eq, Debug, Error)]
pub enum Refusal {
    // There is no motif, or there are more than the planner takes.
    #[error("there is no motif, or there are more than 1,024")]
    WrongMotifCount = 1,
    // The motif on the loom or the motif ordered is no motif of the repertoire.
    #[error("the motif on the loom or the motif ordered is not among the motifs")]
    UnknownEnd = 2,
    // There are more links than the planner takes.
    #[error("there are more than 8,192 links")]
    TooManyLinks = 3,
    // A link leaves or reaches what is no motif of the repertoire.
    #[error("a link leaves or reaches what is not among the motifs")]
    UnknownMotif = 4,
    #[error("the guides are not as many as the motifs")]
    WrongGuideCount = 5,
    #[error("the guide says more than what remains")]
    GuideOverstates = 6,
    // The pile has more simple scales than a held set has bits.
    #[error("there are more than 8 simple scales")]
    TooManyScales = 7,
    // The table has no place, or more than the planner takes.
    #[error("the table has no place, or more than 4,096")]
    WrongTableLength = 8,
    #[error("the buffer is shorter than the route")]
    RouteTooLong = 9,
    // A line is not a frame, or the last lacks its line feed.
    #[error("a line is not a frame: an even number of the digits 0-9 and a-f, at least two, then a line feed")]
    NotAFrame = 10,
    #[error("a frame has an unknown kind or a wrong length")]
    UnknownFrame = 11,
    #[error("a frame is out of order, missing or once too many")]
    FrameOutOfOrder = 12,
    // There are more links or guides than rows to put them in.
    #[error("there are more links or guides than there is room for")]
    TooFewRows = 13,
    #[error("the buffer is shorter than the sheet")]
    BufferTooShort = 14,
    // The repertoire has other counts or ends than the one that was begun with.
    #[error("the repertoire is not the one that was begun with")]
    AnotherRepertoire = 21,
    // The table has another length than the one that was begun with, or a used place of it is wrong.
    #[error("the table is not the one that was begun with")]
    AnotherTable = 22,
    // More links leave the motif of the best open trail than there are unused places.
    #[error("the table has too few unused places")]
    TooFewPlaces = 23,
    // No open trail is at the goal, or another one is better.
    #[error("no plan lies ready")]
    NotSettled = 24,
}

impl Refusal {
    ghost use Rattle.repertoire.specs.Numbers.{refusal_number};

    // The number under which the refusal is listed.
    pub fn number(self) -> u8
        ensures { result ≡ refusal_number self }
    {
        self as u8
    }
}
