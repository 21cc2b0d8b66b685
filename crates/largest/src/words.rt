// The answers of the calls in words.
use repertoire::Refusal;
use scale::WeaveCost;
use std::fmt;
use trails::{Ending, Run, Step};

// A refusal with its number.
#[derive(Clone, Copy)]
pub struct RefusalWords(pub Refusal);

impl fmt::Display for RefusalWords {
    fn fmt<W: fmt::Write>(&self, f: &mut fmt::Formatter<W>) -> fmt::Result {
        let refusal = self.0;
        let number = refusal.number();
        write!(f, "refused with {number}, {refusal}")
    }
}

// What a step answered, and then a run with a budget.
#[derive(Clone, Copy)]
pub struct LookWords {
    pub step: Result<Step, Refusal>,
    pub budget: u16,
    pub run: Result<Run, Refusal>,
}

impl fmt::Display for LookWords {
    fn fmt<W: fmt::Write>(&self, f: &mut fmt::Formatter<W>) -> fmt::Result {
        match self.step {
            Ok(Step::NoWay) => writeln!(f, "Step: no way"),
            Ok(Step::Plan) => writeln!(f, "Step: a plan lies ready"),
            Ok(Step::Expanded) => writeln!(f, "Step: expanded"),
            Err(refusal) => writeln!(f, "Step: {}", RefusalWords(refusal)),
        }?;
        write!(f, "Run of {} at most: ", self.budget)?;
        let run = match self.run {
            Ok(run) => run,
            Err(refusal) => return write!(f, "{}", RefusalWords(refusal)),
        };
        write!(f, "{} expansions, ", run.expansions)?;
        match run.ending {
            Ending::Plan => f.write_str("a plan lies ready"),
            Ending::NoWay => f.write_str("no way"),
            Ending::Full => f.write_str("the table is full"),
            Ending::Spent => f.write_str("the budget is spent"),
        }
    }
}

// The three numbers of a cost or of limits, the yarns as bits.
#[derive(Clone, Copy)]
pub struct CostWords(pub WeaveCost);

impl fmt::Display for CostWords {
    fn fmt<W: fmt::Write>(&self, f: &mut fmt::Formatter<W>) -> fmt::Result {
        let float = self.0.first.value;
        let yarns = self.0.second.first.bits;
        let picks = self.0.second.second.value;
        write!(f, "float {float}, yarns {yarns:06b}, picks {picks}")
    }
}

// What a plan costs, and which limits it holds, as bits.
#[derive(Clone, Copy)]
pub struct PlanWords(pub WeaveCost, pub u8);

impl fmt::Display for PlanWords {
    fn fmt<W: fmt::Write>(&self, f: &mut fmt::Formatter<W>) -> fmt::Result {
        write!(f, "{}, held set {:03b}", CostWords(self.0), self.1)
    }
}

// How many links a route has, and the first and the last of them.
#[derive(Clone, Copy)]
pub struct RouteWords<'a>(pub Result<usize, Refusal>, pub &'a [u16]);

impl fmt::Display for RouteWords<'_> {
    fn fmt<W: fmt::Write>(&self, f: &mut fmt::Formatter<W>) -> fmt::Result {
        let count = match self.0 {
            Ok(count) => count,
            Err(refusal) => return write!(f, "{}", RefusalWords(refusal)),
        };
        let links = self.1.get(0..count).unwrap_or(&[]);
        match links {
            [] => f.write_str("no link"),
            [only] => write!(f, "link {only} alone"),
            [first, .., last] => write!(f, "{count} links, the first {first}, the last {last}"),
        }
    }
}
