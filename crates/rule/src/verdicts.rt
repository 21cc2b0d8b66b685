// What a rule says of two held sets: which is better, or that neither is.
use std::fmt;

#[derive(Clone, Copy, PartialEq, Eq)]
pub enum Verdict {
    First,
    Second,
    Equal,
}

impl fmt::Display for Verdict {
    fn fmt<W: fmt::Write>(&self, f: &mut fmt::Formatter<W>) -> fmt::Result {
        f.write_str(match self {
            Verdict::First => "the first",
            Verdict::Second => "the second",
            Verdict::Equal => "neither",
        })
    }
}
