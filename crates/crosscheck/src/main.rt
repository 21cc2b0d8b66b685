// Tries the sheets of its folder, sheets at the edges of what may be, and buffers and rows that are just enough and one
// too few, and prints what came of each.
#![tactic(auto)]

ghost use Rattle.std.specs.Prelude.{◌≡◌, true, length, take, IfOk, vec_len};

use account::{Account, GUIDE_ROWS, LINK_ROWS, report};
use repertoire::{Header, Link, Refusal, Repertoire};
use rule::{Count, Ladder, Preference, Rule};
use scale::{Grade, Scale, WeaveCost, harness_cost, held_set, weave_cost};
use sheet::encode;
use std::alloc::{Alloc, AllocError};
use std::fs::{self, Files};
use std::io::{self, Print};
use std::str::from_utf8;

mod comparing;

use comparing::choice;

// The header of the smallest sheets.
const HEADER: Header = Header {
    motifs: 1,
    start: 0,
    goal: 0,
};

// The sheets of the folder, and how many rows each is read into.
const TRIALS: [(&str, usize, usize); 28] = [
    ("sample.sheet", LINK_ROWS, GUIDE_ROWS),
    ("smallest.sheet", LINK_ROWS, GUIDE_ROWS),
    ("nothing-reaches-the-goal.sheet", LINK_ROWS, GUIDE_ROWS),
    ("every-yarn.sheet", LINK_ROWS, GUIDE_ROWS),
    ("empty.sheet", LINK_ROWS, GUIDE_ROWS),
    ("no-last-line-feed.sheet", LINK_ROWS, GUIDE_ROWS),
    ("odd-digits.sheet", LINK_ROWS, GUIDE_ROWS),
    ("capital-digit.sheet", LINK_ROWS, GUIDE_ROWS),
    ("carriage-return.sheet", LINK_ROWS, GUIDE_ROWS),
    ("blank-line.sheet", LINK_ROWS, GUIDE_ROWS),
    ("one-line-feed.sheet", LINK_ROWS, GUIDE_ROWS),
    ("not-a-frame-behind-the-end.sheet", LINK_ROWS, GUIDE_ROWS),
    ("unknown-kind.sheet", LINK_ROWS, GUIDE_ROWS),
    ("output-kind.sheet", LINK_ROWS, GUIDE_ROWS),
    ("short-frame.sheet", LINK_ROWS, GUIDE_ROWS),
    ("long-frame.sheet", LINK_ROWS, GUIDE_ROWS),
    (
        "long-frame-behind-a-misplaced-one.sheet",
        LINK_ROWS,
        GUIDE_ROWS,
    ),
    ("links-behind-guides.sheet", LINK_ROWS, GUIDE_ROWS),
    ("header-behind-links.sheet", LINK_ROWS, GUIDE_ROWS),
    ("no-header.sheet", LINK_ROWS, GUIDE_ROWS),
    ("no-limits.sheet", LINK_ROWS, GUIDE_ROWS),
    ("no-end.sheet", LINK_ROWS, GUIDE_ROWS),
    ("two-headers.sheet", LINK_ROWS, GUIDE_ROWS),
    ("two-limits.sheet", LINK_ROWS, GUIDE_ROWS),
    ("two-ends.sheet", LINK_ROWS, GUIDE_ROWS),
    ("sample.sheet", 4, 3),
    ("sample.sheet", 3, 3),
    ("sample.sheet", 4, 2),
];

// Sheets that are written first: so many links and guides, and so many bytes more behind the end. The first has as many
// bytes as a sheet may have.
const EDGES: [(usize, usize, usize); 4] = [
    (1353, 1024, 0),
    (1353, 1024, 1),
    (0, 1024, 0),
    (0, 1025, 0),
];

// Writes what was read of a sheet over the front of a buffer, and says whether that is the sheet again.
fn is_written_again(
    account: &Account,
    links: &[Link<WeaveCost>],
    guides: &[WeaveCost],
    sheet: &[u8],
    buffer: &mut [u8],
) -> bool
    ensures { result ≡ true → take (length sheet.now) buffer.new ≡ sheet.now }
{
    let contents = account.contents;
    let Some(links) = links.get(0..contents.links) else {
        return false;
    };
    let Some(guides) = guides.get(0..contents.guides) else {
        return false;
    };
    let read = Repertoire {
        header: contents.header,
        links,
        guides,
    };
    let Ok(length) = encode(read, contents.limits, buffer) else {
        return false;
    };
    length == sheet.len() && buffer.starts_with(sheet)
}

// So many links and guides, all alike.
fn rows<R: Alloc>(
    rt: &R,
    links: usize,
    guides: usize,
) -> Result<(Vec<Link<WeaveCost>, R::A>, Vec<WeaveCost, R::A>), AllocError>
    ensures { IfOk result (λ made. (vec_len made.0 ≡ links) × (vec_len made.1 ≡ guides)) }
{
    let none = weave_cost(0, 0, 0);
    let link = Link {
        from: 0,
        to: 0,
        cost: none,
    };
    let links = vec![in rt.alloc(); link; links]?;
    let guides = vec![in rt.alloc(); none; guides]?;
    Ok((links, guides))
}

// Reads a sheet of the folder into so many rows, and writes what was read over the front of a buffer.
fn try_sheet<R: Files + Alloc + Print>(
    rt: &R,
    name: &str,
    link_rows: usize,
    guide_rows: usize,
    buffer: &mut [u8],
) -> io::Result<()> {
    let sheet = fs::read(rt, name)?;
    let (mut links, mut guides) = rows(rt, link_rows, guide_rows)?;
    println!(rt; "{name}, {link_rows} and {guide_rows} rows")?;
    match report(
        sheet.as_slice(),
        links.as_mut_slice(),
        guides.as_mut_slice(),
    ) {
        Ok(account) => {
            let same = is_written_again(
                &account,
                links.as_slice(),
                guides.as_slice(),
                sheet.as_slice(),
                buffer,
            );
            print!(rt; "{account}")?;
            println!(rt; "Written again byte for byte: {same}")
        }
        Err(rejection) => println!(rt; "{rejection}"),
    }
}

// Writes a sheet of so many links and guides over the front of a buffer, and reads it back with so many bytes more.
fn try_edge<R: Alloc + Print>(
    rt: &R,
    link_count: usize,
    guide_count: usize,
    more: usize,
    buffer: &mut [u8],
) -> io::Result<()> {
    let (links, guides) = rows(rt, link_count, guide_count)?;
    let repertoire = Repertoire {
        header: HEADER,
        links: links.as_slice(),
        guides: guides.as_slice(),
    };
    let answer = encode(repertoire, weave_cost(0, 0, 0), buffer);
    let length = answer.unwrap_or(0).saturating_add(more).min(buffer.len());
    println!(rt; "{link_count} links, {guide_count} guides, {length} bytes")?;
    let (mut links, mut guides) = rows(rt, LINK_ROWS, GUIDE_ROWS)?;
    match report(
        &buffer[0..length],
        links.as_mut_slice(),
        guides.as_mut_slice(),
    ) {
        Ok(account) => print!(rt; "{account}"),
        Err(rejection) => println!(rt; "{rejection}"),
    }
}

// Compares two costs under their limits, by each rule.
fn try_costs<S: Scale>(
    rt: &impl Print,
    name: &str,
    limits: S,
    first: S,
    second: S,
) -> io::Result<()> {
    let sets = (held_set(limits, first), held_set(limits, second));
    println!(rt; "{name} costs that hold {sets:?}")?;
    let by_ladder = Preference {
        limits,
        rule: Ladder,
    };
    let by_count = Preference {
        limits,
        rule: Count,
    };
    try_choice(rt, "the ladder", &by_ladder, first, second)?;
    try_choice(rt, "count", &by_count, first, second)
}

// Compares two costs by one preference.
fn try_choice<S: Scale, R: Rule>(
    rt: &impl Print,
    name: &str,
    preference: &Preference<S, R>,
    first: S,
    second: S,
) -> io::Result<()> {
    let chosen = choice(preference, first, second);
    println!(rt; "By {name} {chosen} is preferred")
}

// Writes the shortest sheet into a buffer of so many bytes.
fn try_buffer<R: Alloc + Print>(rt: &R, length: usize) -> io::Result<()> {
    let mut buffer = vec![in rt.alloc(); b'-'; length]?;
    let shortest = Repertoire {
        header: HEADER,
        links: &[],
        guides: &[],
    };
    let answer = encode(shortest, weave_cost(0, 0, 0), buffer.as_mut_slice());
    let refused = answer.err().map(Refusal::number);
    println!(rt; "The shortest sheet in {length} bytes, refused {refused:?}")?;
    let text = from_utf8(buffer.as_slice()).unwrap_or("no text");
    println!(rt; "{text}")
}

fn main(rt: HostRuntime) -> io::Result<()> {
    let mut buffer = vec![in rt.alloc(); 0u8; 70000]?;
    for (name, link_rows, guide_rows) in TRIALS {
        try_sheet(&rt, name, link_rows, guide_rows, buffer.as_mut_slice())?;
    }
    for (link_count, guide_count, more) in EDGES {
        try_edge(&rt, link_count, guide_count, more, buffer.as_mut_slice())?;
    }
    try_costs(
        &rt,
        "Weave",
        weave_cost(5, 3, 40),
        weave_cost(4, 3, 45),
        weave_cost(6, 3, 25),
    )?;
    try_costs(
        &rt,
        "Harness",
        harness_cost(Grade::Medium, 60),
        harness_cost(Grade::Large, 10),
        harness_cost(Grade::Medium, 80),
    )?;
    for length in [40, 41, 45] {
        try_buffer(&rt, length)?;
    }
    Ok(())
}
