// The calls of the planner: begin, step, run, relimit, settle, reopen and route. Each equals its definition in the crate of
// the trails, in its answer, in what it leaves and in every place of the table; begin promises what holds over whole runs.
#![tactic(auto)]

mod beginning;
mod calls;
mod plans;
mod readers;
mod running;
mod searches;
mod stepping;

pub use beginning::begin;
pub use searches::{Plan, Search};
