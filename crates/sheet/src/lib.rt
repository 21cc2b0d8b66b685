// Sheets: the bytes in which the office keeps a repertoire and its limits, read into rows that the caller lends and
// written into a buffer that the caller lends. Every line of a sheet is looked at before a row is filled.
#![tactic(auto)]

ghost use Rattle.std.specs.Prelude.{◌≡◌, ◌+◌, ◌^◌, ◌<◌, Some, None, Ok};
ghost use Rattle.std.specs.Option.{option_or};
ghost use Rattle.frames.specs.Frames.{frame_kind, frame_line};
ghost use Rattle.frames.specs.Lines.{lines};
ghost use Rattle.sheet.specs.Order.{may_follow, may_end};
ghost use Rattle.sheet.specs.Sheets.{rowless, unless};
ghost use Rattle.sheet.specs.Steps.{noted, begun, with, surveyed, fault_of, unfaulted};

use frames::{Frame, Kind, first_line, parse};
use repertoire::Refusal;

mod contents;
mod faults;
mod reading;
mod rows;
mod surveys;
mod writing;

pub use contents::Contents;
pub use faults::Fault;
pub use reading::decode;
use surveys::Survey;
pub use writing::encode;

// Whether a frame may come first, or behind one of the last kind.
fn may_follow(last: Option<Kind>, next: Kind) -> bool
    ensures { result ≡ may_follow last next }
{
    match last {
        None => next == Kind::Header,
        Some(Kind::Header | Kind::Link) => matches!(next, Kind::Link | Kind::Guide | Kind::Limits),
        Some(Kind::Guide) => matches!(next, Kind::Guide | Kind::Limits),
        Some(Kind::Limits) => next == Kind::End,
        Some(Kind::End) => false,
    }
}

impl Survey {
    // Before the first line.
    fn begun() -> Survey
        ensures { result ≡ begun }
    {
        Survey {
            line: 1,
            ..Survey::default()
        }
    }

    // One frame more, of an unknown kind or a wrong length.
    fn with_unknown(self) -> Survey
        requires { self.line + 1 < 2 ^ 64 }
        ensures { result ≡ with self None }
    {
        let line = self.line;
        Survey {
            line: line + 1,
            unknown: self.unknown.or(Some(line)),
            ..self
        }
    }

    // One frame more.
    fn with_frame(self, frame: &Frame<'_>) -> Survey
        requires line { self.line + 1 < 2 ^ 64 }
        requires links { self.links + 1 < 2 ^ 64 }
        requires guides { self.guides + 1 < 2 ^ 64 }
        requires here { frame_line frame.now ≡ self.line }
        ensures { result ≡ with self (Some (frame_kind frame.now)) }
    {
        let kind = frame.kind();
        let misplaced = (!may_follow(self.last, kind)).then_some(frame.line());
        Survey {
            line: self.line + 1,
            last: Some(kind),
            misplaced: self.misplaced.or(misplaced),
            links: self.links + usize::from(kind == Kind::Link),
            guides: self.guides + usize::from(kind == Kind::Guide),
            ..self
        }
    }

    // The first frame out of order, or the line behind the last where a frame is missing.
    fn out_of_order(&self) -> Option<usize>
        ensures { result ≡ option_or self.now.misplaced (noted (may_end self.now.last) self.now.line) }
    {
        let ended = self.last == Some(Kind::End);
        self.misplaced.or((!ended).then_some(self.line))
    }

    // The first line that finds no row, given so many rows.
    fn rowless(&self, link_rows: usize, guide_rows: usize) -> Option<usize>
        requires { link_rows + guide_rows + 2 < 2 ^ 64 }
        ensures { result ≡ rowless link_rows guide_rows self.now.links self.now.guides }
    {
        if self.links > link_rows {
            return Some(link_rows + 2);
        }
        (self.guides > guide_rows).then_some(self.links + guide_rows + 2)
    }

    // Refuses frames that are all surveyed where something is wrong with them, given so many rows.
    fn check(&self, link_rows: usize, guide_rows: usize) -> Result<(), Fault>
        requires { link_rows + guide_rows + 2 < 2 ^ 64 }
        ensures { result ≡ unfaulted (fault_of link_rows guide_rows self.now) (Ok tt) }
    {
        unless(self.unknown, Refusal::UnknownFrame)?;
        unless(self.out_of_order(), Refusal::FrameOutOfOrder)?;
        unless(self.rowless(link_rows, guide_rows), Refusal::TooFewRows)
    }
}

// Refused where a check finds a line.
fn unless(line: Option<usize>, refusal: Refusal) -> Result<(), Fault>
    ensures { result ≡ unless line refusal (Ok tt) }
{
    match line {
        Some(line) => Err(Fault { refusal, line }),
        None => Ok(()),
    }
}

// Looks at every line, up to the first that is no frame.
fn survey(sheet: &[u8]) -> Result<Survey, Fault>
    ensures { result ≡ surveyed begun (lines sheet.now) }
{
    let mut survey = Survey::begun();
    let mut left = sheet;
    while let Some((text, rest)) = first_line(left) {
        match parse(text, survey.line) {
            Ok(frame) => survey = survey.with_frame(&frame),
            Err(Refusal::NotAFrame) => return Err(Fault {
                refusal: Refusal::NotAFrame,
                line: survey.line,
            }),
            Err(_) => survey = survey.with_unknown(),
        }
        left = rest;
    }
    Ok(survey)
}
