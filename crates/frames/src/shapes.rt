// One line of a sheet, taken apart: each case borrows the digits of its parts, and `line` is the place of the line
// in the sheet, counted from 1.
#[derive(Clone, Copy)]
pub enum Frame<'a> {
    Header {
        motifs: &'a [u8],
        start: &'a [u8],
        goal: &'a [u8],
        line: usize,
    },
    Link {
        from: &'a [u8],
        to: &'a [u8],
        cost: &'a [u8],
        line: usize,
    },
    Guide {
        cost: &'a [u8],
        line: usize,
    },
    Limits {
        cost: &'a [u8],
        line: usize,
    },
    End {
        line: usize,
    },
}
