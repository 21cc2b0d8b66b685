// The words of the account.
use super::reports::Account;
use repertoire::Header;
use scale::{WeaveCost, YarnSet};
use sheet::Contents;
use std::fmt;

// The numbers of the yarns in a set, in rising order.
#[derive(Clone, Copy)]
struct Yarns(YarnSet);

impl fmt::Display for Yarns {
    fn fmt<W: fmt::Write>(&self, f: &mut fmt::Formatter<W>) -> fmt::Result {
        let yarns = self.0;
        let mut numbers = (0..32u32).filter(|yarn| yarns.has(*yarn));
        let Some(first) = numbers.next() else {
            return f.write_str("none");
        };
        write!(f, "{first}")?;
        for yarn in numbers {
            write!(f, ", {yarn}")?;
        }
        Ok(())
    }
}

// The limits, the most important first.
#[derive(Clone, Copy)]
struct Limits(WeaveCost);

impl fmt::Display for Limits {
    fn fmt<W: fmt::Write>(&self, f: &mut fmt::Formatter<W>) -> fmt::Result {
        let float = self.0.first.value;
        let yarns = Yarns(self.0.second.first);
        let picks = self.0.second.second.value;
        writeln!(f, "Limits, the most important first:")?;
        writeln!(f, "  longest float: {float} at most")?;
        writeln!(f, "  yarns: {yarns}")?;
        writeln!(f, "  picks: {picks} at most")
    }
}

impl fmt::Display for Account {
    fn fmt<W: fmt::Write>(&self, f: &mut fmt::Formatter<W>) -> fmt::Result {
        let Account {
            contents,
            leaving,
            reaching,
        } = *self;
        let Contents {
            header,
            limits,
            links,
            guides,
        } = contents;
        let Header {
            motifs,
            start,
            goal,
        } = header;
        let limits = Limits(limits);
        writeln!(f, "The sheet is accepted.")?;
        writeln!(
            f,
            "Motifs: {motifs}, numbered from 0. Links: {links}. Guides: {guides}."
        )?;
        writeln!(f, "On the loom: motif {start}. Ordered: motif {goal}.")?;
        writeln!(
            f,
            "Links that leave motif {start}: {leaving}. Links that reach motif {goal}: {reaching}."
        )?;
        if self.cannot_begin() {
            writeln!(
                f,
                "No link leaves motif {start}, so no chain can begin there."
            )?;
        }
        if self.cannot_end() {
            writeln!(
                f,
                "No link reaches motif {goal}, so no chain can end there."
            )?;
        }
        write!(f, "{limits}")
    }
}
