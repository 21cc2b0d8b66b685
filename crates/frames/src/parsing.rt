// A line taken apart as a frame, and what it says in numbers.
ghost use Rattle.std.specs.Prelude.{◌≡◌, ◌%◌, ◌&&◌, length, IfOk, ◌==◌};
ghost use Rattle.frames.specs.Digits.{all_digits};
ghost use Rattle.frames.specs.Frames.{body_length, read_line, line_of, cost_of, frame_kind, frame_line, said, Whole, Parted, Parses};

use super::{Entry, Frame, Kind, digit_value, is_digit, number, short_number};
use repertoire::{Header, Link, Refusal};
use scale::{WeaveCost, weave_cost};

// Whether there are only digits, and an even number of them.
fn are_paired_digits(bytes: &[u8]) -> bool
    ensures { result ≡ (length bytes.now % 2 == 0 && all_digits bytes.now) }
{
    bytes.len() % 2 == 0 && bytes.iter().all(|byte| is_digit(*byte))
}

// A frame of the kind, its parts taken from the digits behind the first byte.
fn frame_of(kind: Kind, body: &[u8], line: usize) -> Frame<'_>
    requires { length body.now ≡ body_length kind }
    ensures kind { frame_kind result ≡ kind }
    ensures parts { Parted body.now line result }
{
    match kind {
        Kind::Header => Frame::Header {
            motifs: &body[0..4],
            start: &body[4..8],
            goal: &body[8..12],
            line,
        },
        Kind::Link => Frame::Link {
            from: &body[0..4],
            to: &body[4..8],
            cost: &body[8..28],
            line,
        },
        Kind::Guide => Frame::Guide { cost: body, line },
        Kind::Limits => Frame::Limits { cost: body, line },
        Kind::End => Frame::End { line },
    }
}

// A line of a sheet, its line feed included, as a frame.
pub fn parse(text: &[u8], line: usize) -> Result<Frame<'_>, Refusal>
    ensures { Parses text.now line result }
{
    let [digits @ .., b'\n'] = text else {
        return Err(Refusal::NotAFrame);
    };
    let [high, low, body @ ..] = digits else {
        return Err(Refusal::NotAFrame);
    };
    if !are_paired_digits(digits) {
        return Err(Refusal::NotAFrame);
    }
    let kind = Kind::try_from(digit_value(*high) * 16 + digit_value(*low))?;
    if body.len() != kind.body_length() {
        return Err(Refusal::UnknownFrame);
    }
    Ok(frame_of(kind, body, line))
}

impl Frame<'_> {
    pub fn kind(&self) -> Kind
        ensures { result ≡ frame_kind self.now }
    {
        match self {
            Frame::Header { .. } => Kind::Header,
            Frame::Link { .. } => Kind::Link,
            Frame::Guide { .. } => Kind::Guide,
            Frame::Limits { .. } => Kind::Limits,
            Frame::End { .. } => Kind::End,
        }
    }

    // The place of its line in the sheet, counted from 1.
    pub fn line(&self) -> usize
        ensures { result ≡ frame_line self.now }
    {
        match self {
            Frame::Header { line, .. }
            | Frame::Link { line, .. }
            | Frame::Guide { line, .. }
            | Frame::Limits { line, .. }
            | Frame::End { line } => *line,
        }
    }

    // What the digits say.
    fn entry(&self) -> Entry
        requires { Whole self.now }
        ensures { result ≡ said self.now }
    {
        match self {
            Frame::Header {
                motifs,
                start,
                goal,
                ..
            } => Entry::Header(Header {
                motifs: short_number(motifs),
                start: short_number(start),
                goal: short_number(goal),
            }),
            Frame::Link { from, to, cost, .. } => Entry::Link(Link {
                from: short_number(from),
                to: short_number(to),
                cost: cost_of(cost),
            }),
            Frame::Guide { cost, .. } => Entry::Guide(cost_of(cost)),
            Frame::Limits { cost, .. } => Entry::Limits(cost_of(cost)),
            Frame::End { .. } => Entry::End,
        }
    }
}

// The cost that twenty digits write.
fn cost_of(digits: &[u8]) -> WeaveCost
    requires { length digits.now ≡ 20 }
    ensures { result ≡ cost_of digits.now }
{
    weave_cost(
        short_number(&digits[0..4]),
        number(&digits[4..12]),
        number(&digits[12..20]),
    )
}

// What a line of a sheet says, its line feed included.
#[tactic(auto, using(crate::proofs::Reading::said_is))]
pub fn read(text: &[u8]) -> Result<Entry, Refusal>
    ensures value { result ≡ read_line text.now }
    ensures again { IfOk result (λ e. line_of e ≡ text.now) }
{
    let frame = parse(text, 1)?;
    Ok(frame.entry())
}
