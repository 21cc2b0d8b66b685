// A sheet written into the buffer of its caller.
ghost use Rattle.std.specs.Prelude.{◌≡◌, ◌+◌, ◌*◌, ◌≤◌, map, length, Ok, OnOk};
ghost use Rattle.std.specs.List.{AllByRecursion};
ghost use Rattle.frames.specs.declared.entries.Entry.TheVariants.{Link as LinkEntry, Guide as GuideEntry};
ghost use Rattle.frames.specs.Frames.{over, ReadsBack};
ghost use Rattle.sheet.specs.Sheets.{records, text_of, length_in, written_into, RoundTrips};

use super::rows::Row;
use frames::{Entry, write};
use repertoire::{Link, Refusal, Repertoire};
use scale::WeaveCost;

impl Row for Entry {
    ghost said = { λ e. e };

    fn entry(self) -> Entry {
        self
    }
}

impl Row for Link<WeaveCost> {
    ghost said = { LinkEntry };

    fn entry(self) -> Entry {
        Entry::Link(self)
    }
}

impl Row for WeaveCost {
    ghost said = { GuideEntry };

    fn entry(self) -> Entry {
        Entry::Guide(self)
    }
}

// Writes a line for each row at a place where there is room for them, and says where they end.
fn write_rows<R: Row>(buffer: &mut [u8], start: usize, rows: &[R]) -> Result<usize, Refusal>
    requires { start + length (text_of (map R.Row.said rows.now)) ≤ length buffer.old }
    ensures value { result ≡ Ok (start + length (text_of (map R.Row.said rows.now))) }
    ensures after { buffer.new ≡ over buffer.old start (text_of (map R.Row.said rows.now)) }
    ensures back { AllByRecursion ReadsBack (map R.Row.said rows.now) }
{
    let mut at = start;
    for row in rows {
        at = write(buffer, at, row.entry())?;
    }
    Ok(at)
}

// The lengths of the lines of a sheet, their line feeds included.
const HEADER_LINE: u128 = 15;

const LINK_LINE: u128 = 31;

const COST_LINE: u128 = 23;

const END_LINE: u128 = 3;

// How long a sheet is that has so many links and guides.
fn sheet_length(links: usize, guides: usize) -> u128
    ensures { result ≡ 41 + 31 * links + 23 * guides }
{
    HEADER_LINE + LINK_LINE * links as u128 + COST_LINE * guides as u128 + COST_LINE + END_LINE
}

// Writes the sheet of a repertoire and its limits at the front of a buffer, and says how long it is; the rest of the
// buffer stays. Where the buffer is too short, all of it stays.
pub fn encode(
    repertoire: Repertoire<'_, WeaveCost>,
    limits: WeaveCost,
    buffer: &mut [u8],
) -> Result<usize, Refusal>
    ensures value { result ≡ length_in (records repertoire.entry limits) buffer.old }
    ensures after { buffer.new ≡ written_into (records repertoire.entry limits) buffer.old }
    ensures back { OnOk result (RoundTrips (records repertoire.entry limits)) }
{
    let Repertoire {
        header,
        links,
        guides,
    } = repertoire;
    if sheet_length(links.len(), guides.len()) > buffer.len() as u128 {
        return Err(Refusal::BufferTooShort);
    }
    let links_at = write_rows(buffer, 0, &[Entry::Header(header)])?;
    let guides_at = write_rows(buffer, links_at, links)?;
    let limits_at = write_rows(buffer, guides_at, guides)?;
    write_rows(buffer, limits_at, &[Entry::Limits(limits), Entry::End])
}
