// Runs the samples by the calls of the planner, and prints what comes of each.
#![tactic(auto)]

ghost use Rattle.std.specs.Prelude.{◌≡◌};
ghost use Rattle.scale.specs.Weave.{woven};

use begun::{begun_stop, begun_trip};
use faults::Fault;
use outcomes::Answer;
use planner::begin;
use repertoire::{Header, Link, Repertoire};
use rows::{change_links, sheet_links, unused_place};
use rule::{Count, Ladder, Preference};
use scale::{Grade, HarnessCost, WeaveCost, harness_cost, weave_cost};
use trails::{Step, Trail};
use trips::{refused, stop, trip};

mod begun;
mod faults;
mod outcomes;
mod rows;
mod trips;

// A budget that no sample spends.
const MOST: u16 = 65535;

const SHEET: Header = Header {
    motifs: 3,
    start: 0,
    goal: 2,
};

// The start of the sheet and its goal, exchanged.
const BACK: Header = Header {
    motifs: 3,
    start: 2,
    goal: 0,
};

const EMPTY: Header = Header {
    motifs: 0,
    start: 0,
    goal: 0,
};

const SAME: Header = Header {
    motifs: 1,
    start: 0,
    goal: 0,
};

const APART: Header = Header {
    motifs: 2,
    start: 0,
    goal: 1,
};

// The limits of the sample sheet, and the ladder.
fn sheet_preference() -> Preference<WeaveCost, Ladder>
    ensures { result.limits ≡ woven 5 3 40 }
{
    Preference {
        limits: weave_cost(5, 3, 40),
        rule: Ladder,
    }
}

// The sample sheet: a plan and its route, and again under another limit; then a table that is too small.
fn plans_of_the_sheet(
    rt: &impl Print,
    sheet: Repertoire<'_, WeaveCost>,
    trails: &mut [Trail<WeaveCost>],
) -> Result<(), Fault> {
    let four: &mut [Trail<WeaveCost>] = &mut [unused_place(); 4];
    let first = begun_trip(sheet, sheet_preference(), trails, MOST)?;
    println!(rt;
        "The sample sheet in 8 places\n  {}\n  {}",
        first.stop, first.way
    )?;
    let too_long = refused(first.plan.route(sheet, trails, &mut [0]));
    println!(rt; "  its route in a buffer of 1: refused {too_long:?}")?;
    let looking = first.plan.reopen(weave_cost(6, 3, 40));
    let second = trip(looking, sheet, trails, MOST)?;
    println!(rt;
        "Reopened with float limit 6\n  {}\n  {}",
        second.stop, second.way
    )?;
    let full = begun_stop(sheet, sheet_preference(), four, MOST)?;
    println!(rt; "The sample sheet in 4 places\n  {full}")?;
    Ok(())
}

// The sample sheet, step by step until there is nothing to expand.
fn steps_of_the_sheet(
    rt: &impl Print,
    sheet: Repertoire<'_, WeaveCost>,
    trails: &mut [Trail<WeaveCost>],
) -> Result<(), Fault> {
    println!(rt; "The sample sheet step by step")?;
    let mut looking = begin(sheet, sheet_preference(), trails)?;
    for _ in 0..10 {
        let step = looking.step(sheet, trails)?;
        println!(rt; "  {}", Answer(step))?;
        if step != Step::Expanded {
            break;
        }
    }
    Ok(())
}

// A change of harness, by the other rule.
fn plan_of_a_change(rt: &impl Print) -> Result<(), Fault> {
    let hooks: &[Link<HarnessCost>] = &change_links();
    let works: &[HarnessCost] = &[harness_cost(Grade::Tiny, 0); 3];
    let table: &mut [Trail<HarnessCost>] = &mut [unused_place(); 8];
    let change = Repertoire {
        header: SHEET,
        links: hooks,
        guides: works,
    };
    let preference = Preference {
        limits: harness_cost(Grade::Medium, 60),
        rule: Count,
    };
    let third = begun_trip(change, preference, table, MOST)?;
    println!(rt; "A change of harness\n  {}\n  {}", third.stop, third.way)?;
    Ok(())
}

// One motif, and two without a link, with budgets that suffice and that don't.
fn smallest_plans(rt: &impl Print, trails: &mut [Trail<WeaveCost>]) -> Result<(), Fault> {
    let none = weave_cost(0, 0, 0);
    let one: &[WeaveCost] = &[none];
    let two: &[WeaveCost] = &[none; 2];
    let same = Repertoire {
        header: SAME,
        links: &[],
        guides: one,
    };
    let apart = Repertoire {
        header: APART,
        links: &[],
        guides: two,
    };
    let fourth = begun_trip(same, sheet_preference(), trails, MOST)?;
    println!(rt; "One motif\n  {}\n  {}", fourth.stop, fourth.way)?;
    let ended = begun_stop(apart, sheet_preference(), trails, MOST)?;
    let by_one = begun_stop(apart, sheet_preference(), trails, 1)?;
    let by_none = begun_stop(apart, sheet_preference(), trails, 0)?;
    println!(rt; "Two motifs without a link\n  {ended}\n  {by_one}\n  {by_none}")?;
    Ok(())
}

// What begin refuses.
fn refused_beginnings(
    rt: &impl Print,
    sheet: Repertoire<'_, WeaveCost>,
    trails: &mut [Trail<WeaveCost>],
) -> Result<(), Fault> {
    let high: &[WeaveCost] = &[weave_cost(5, 3, 40); 3];
    let empty = Repertoire {
        header: EMPTY,
        links: &[],
        guides: &[],
    };
    let overstated = Repertoire {
        guides: high,
        ..sheet
    };
    println!(rt;
        "Begun with no place, no motif, a guide that overstates: refused {:?}, {:?}, {:?}",
        refused(begin(sheet, sheet_preference(), &mut [])),
        refused(begin(empty, sheet_preference(), trails)),
        refused(begin(overstated, sheet_preference(), trails)),
    )?;
    Ok(())
}

// What the later calls refuse, and that they go on as if they had not been called.
fn refused_calls(
    rt: &impl Print,
    sheet: Repertoire<'_, WeaveCost>,
    trails: &mut [Trail<WeaveCost>],
) -> Result<(), Fault> {
    let seven: &mut [Trail<WeaveCost>] = &mut [unused_place(); 7];
    let back = Repertoire {
        header: BACK,
        ..sheet
    };
    let looking = begin(sheet, sheet_preference(), trails)?;
    let Err(unsettled) = looking.settle(sheet, trails) else {
        return Ok(());
    };
    let (mut looking, early) = unsettled;
    println!(rt;
        "Settled before any run, run on another table, with other ends: refused {}, {:?}, {:?}",
        early.number(),
        refused(looking.run(sheet, seven, MOST)),
        refused(looking.run(back, trails, MOST)),
    )?;
    let then = stop(&mut looking, sheet, trails, MOST)?;
    println!(rt; "Run after these refusals\n  {then}")?;
    Ok(())
}

fn main(rt: HostRuntime) -> Result<(), Fault> {
    let links: &[Link<WeaveCost>] = &sheet_links();
    let guides: &[WeaveCost] = &[weave_cost(0, 0, 0); 3];
    // One row for all of them: what one sample leaves in it, the next begins with.
    let trails: &mut [Trail<WeaveCost>] = &mut [unused_place(); 8];
    let sheet = Repertoire {
        header: SHEET,
        links,
        guides,
    };
    plans_of_the_sheet(&rt, sheet, trails)?;
    steps_of_the_sheet(&rt, sheet, trails)?;
    plan_of_a_change(&rt)?;
    smallest_plans(&rt, trails)?;
    refused_beginnings(&rt, sheet, trails)?;
    refused_calls(&rt, sheet, trails)
}
