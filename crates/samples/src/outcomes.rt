// What comes of a call, and its words.
use planner::Plan;
use scale::{Grade, HarnessCost, WeaveCost};
use std::fmt;
use trails::{Ending, Run, Step};

// How a run ended, and how many places of the table are used then.
#[derive(Clone, Copy)]
pub struct Stop {
    pub run: Run,
    pub used: u16,
}

impl fmt::Display for Stop {
    fn fmt<W: fmt::Write>(&self, f: &mut fmt::Formatter<W>) -> fmt::Result {
        f.write_str(match self.run.ending {
            Ending::Plan => "plan",
            Ending::NoWay => "no way",
            Ending::Full => "full",
            Ending::Spent => "spent",
        })?;
        let made = self.run.expansions;
        let used = self.used;
        write!(f, ", expansions {made}, places used {used}")
    }
}

// A plan: its cost, its held set, and the numbers of its links at the front of a row.
#[derive(Clone, Copy)]
pub struct Way<S> {
    pub cost: S,
    pub held: u8,
    pub route: Route,
}

// So many links, at the front of a row.
#[derive(Clone, Copy)]
pub struct Route {
    pub count: usize,
    pub links: [u16; 4],
}

impl fmt::Display for Route {
    fn fmt<W: fmt::Write>(&self, f: &mut fmt::Formatter<W>) -> fmt::Result {
        let count = self.count;
        write!(f, "{count} links:")?;
        for link in self.links.iter().take(count) {
            write!(f, " {link}")?;
        }
        Ok(())
    }
}

impl fmt::Display for Way<WeaveCost> {
    fn fmt<W: fmt::Write>(&self, f: &mut fmt::Formatter<W>) -> fmt::Result {
        let float = self.cost.first.value;
        let yarns = self.cost.second.first.bits;
        let picks = self.cost.second.second.value;
        let held = self.held;
        let route = self.route;
        write!(
            f,
            "float {float}, yarns {yarns}, picks {picks}, held set {held}, {route}"
        )
    }
}

impl fmt::Display for Way<HarnessCost> {
    fn fmt<W: fmt::Write>(&self, f: &mut fmt::Formatter<W>) -> fmt::Result {
        f.write_str(match self.cost.first {
            Grade::Tiny => "tiny",
            Grade::Small => "small",
            Grade::Medium => "medium",
            Grade::Large => "large",
            Grade::Huge => "huge",
        })?;
        let hooks = self.cost.second.value;
        let held = self.held;
        let route = self.route;
        write!(f, " work, hooks {hooks}, held set {held}, {route}")
    }
}

// A run that ended in a plan, the way that it goes, and the plan.
#[derive(Drop)]
pub struct Trip<S, R> {
    pub stop: Stop,
    pub way: Way<S>,
    pub plan: Plan<S, R>,
}

// What a step answered.
#[derive(Clone, Copy)]
pub struct Answer(pub Step);

impl fmt::Display for Answer {
    fn fmt<W: fmt::Write>(&self, f: &mut fmt::Formatter<W>) -> fmt::Result {
        f.write_str(match self.0 {
            Step::NoWay => "no way",
            Step::Plan => "plan",
            Step::Expanded => "expanded",
        })
    }
}
