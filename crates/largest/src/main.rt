// Makes the largest repertoire that the planner takes, plans in it under one set of limits after another, and prints what
// came of each call.
#![tactic(auto)]

use planner::begin;
use repertoire::{Header, Repertoire};
use rule::{Ladder, Preference};
use scale::weave_cost;
use std::io;

mod making;
mod words;

use making::{link_of, unused_place};
use words::{CostWords, LookWords, PlanWords, RefusalWords, RouteWords};

// As many motifs, links and places as the planner takes.
const HEADER: Header = Header {
    motifs: 1024,
    start: 0,
    goal: 1023,
};

const LINKS: u16 = 8192;

const PLACES: usize = 4096;

// Each round has a budget for its run and room for so many links of a route. It ends with new limits: longest float, yarns
// and picks.
const ROUNDS: [(u16, usize, (u16, u32, u32)); 7] = [
    (0, PLACES, (9, 47, 90)),
    (200, PLACES, (7, 63, 90)),
    (65535, 6, (7, 63, 90)),
    (65535, PLACES, (4, 23, 60)),
    (65535, PLACES, (4, 31, 45)),
    (65535, PLACES, (7, 63, 90)),
    (65535, PLACES, (7, 63, 90)),
];

fn main(rt: HostRuntime) -> io::Result<()> {
    let links: Vec<_> = (0..LINKS).map(link_of).collect(rt.alloc())?;
    let guides = vec![in rt.alloc(); weave_cost(0, 0, 0); usize::from(HEADER.motifs)]?;
    let mut row = vec![in rt.alloc(); unused_place(); PLACES]?;
    let repertoire = Repertoire {
        header: HEADER,
        links: links.as_slice(),
        guides: guides.as_slice(),
    };
    let preference = Preference {
        limits: weave_cost(9, 7, 90),
        rule: Ladder,
    };
    let Ok(mut looking) = begin(repertoire, preference, row.as_mut_slice()) else {
        return println!(rt; "Begin: refused");
    };
    for (budget, room, (float, yarns, picks)) in ROUNDS {
        let limits = weave_cost(float, yarns, picks);
        let step = looking.step(repertoire, row.as_mut_slice());
        let run = looking.run(repertoire, row.as_mut_slice(), budget);
        println!(rt; "{}", LookWords { step, budget, run })?;
        match looking.settle(repertoire, row.as_slice()) {
            Err(back) => {
                let (again, refusal) = back;
                println!(rt; "Settle: {}", RefusalWords(refusal))?;
                looking = again;
                looking.relimit(limits);
            }
            Ok(plan) => {
                println!(rt; "Settle: {}", PlanWords(plan.cost(), plan.held_set()))?;
                let mut route = vec![in rt.alloc(); 0u16; room]?;
                let answer = plan.route(repertoire, row.as_slice(), route.as_mut_slice());
                println!(rt; "Route: {}", RouteWords(answer, route.as_slice()))?;
                looking = plan.reopen(limits);
            }
        }
        println!(rt; "Next limits: {}", CostWords(limits))?;
    }
    Ok(())
}
