// A sheet read into the rows of its caller.
ghost use Rattle.std.specs.Prelude.{◌≡◌, ◌+◌, ◌^◌, ◌<◌, ◌≤◌, length, slice_set, IfOk};
ghost use Rattle.frames.specs.Lines.{lines};
ghost use Rattle.sheet.specs.Sheets.{answered, links_after, guides_after, decoded_into, written};
ghost use Rattle.sheet.specs.Steps.{filling, empty, stored, filled};

use super::{Contents, Fault, survey};
use frames::{Entry, first_line, read};
use repertoire::{Header, Link};
use scale::{WeaveCost, weave_cost};

// Puts a row at its place, if it is there.
fn put<T: Copy>(rows: &mut [T], at: usize, row: T)
    ensures { rows.new ≡ slice_set rows.old at row }
{
    if at < rows.len() {
        rows[at] = row;
    }
}

// Puts an entry where it belongs; one that has no row is left out.
fn store(
    entry: Entry,
    contents: &mut Contents,
    links: &mut [Link<WeaveCost>],
    guides: &mut [WeaveCost],
)
    requires links { contents.old.links + 1 < 2 ^ 64 }
    requires guides { contents.old.guides + 1 < 2 ^ 64 }
    ensures { filling contents.new links.new guides.new ≡ stored (filling contents.old links.old guides.old) entry }
{
    match entry {
        Entry::Header(header) => contents.header = header,
        Entry::Link(link) => {
            put(links, contents.links, link);
            contents.links += 1;
        }
        Entry::Guide(guide) => {
            put(guides, contents.guides, guide);
            contents.guides += 1;
        }
        Entry::Limits(limits) => contents.limits = limits,
        Entry::End => {}
    }
}

// Fills the rows from a sheet, line by line.
fn fill(sheet: &[u8], links: &mut [Link<WeaveCost>], guides: &mut [WeaveCost]) -> Contents
    ensures { filling result links.new guides.new ≡ filled (filling empty links.old guides.old) (lines sheet.now) }
{
    let mut contents = Contents {
        header: Header {
            motifs: 0,
            start: 0,
            goal: 0,
        },
        limits: weave_cost(0, 0, 0),
        links: 0,
        guides: 0,
    };
    let mut left = sheet;
    while let Some((text, rest)) = first_line(left) {
        if let Ok(entry) = read(text) {
            store(entry, &mut contents, links, guides);
        }
        left = rest;
    }
    contents
}

// Reads a sheet: puts its links and guides at the fronts of the rows that the caller lends, and answers the rest. The
// whole sheet is checked first; where it is refused, the rows stay as they were.
pub fn decode(
    sheet: &[u8],
    links: &mut [Link<WeaveCost>],
    guides: &mut [WeaveCost],
) -> Result<Contents, Fault>
    ensures value { result ≡ answered (decoded_into links.old guides.old sheet.now) }
    ensures links { links.new ≡ links_after (decoded_into links.old guides.old sheet.now) links.old }
    ensures guides { guides.new ≡ guides_after (decoded_into links.old guides.old sheet.now) guides.old }
    ensures within { IfOk result (λ c. (c.links ≤ length links.old) × (c.guides ≤ length guides.old)) }
    ensures again { IfOk (decoded_into links.old guides.old sheet.now) (λ s. written s ≡ sheet.now) }
{
    let survey = survey(sheet)?;
    survey.check(links.len(), guides.len())?;
    Ok(fill(sheet, links, guides))
}
