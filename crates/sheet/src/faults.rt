// Why a sheet is refused, and the number of the line at fault, counted from 1; where a frame is missing, that is the
// line behind the last.
use repertoire::Refusal;

#[derive(Clone, Copy, Debug)]
pub struct Fault {
    pub refusal: Refusal,
    pub line: usize,
}
