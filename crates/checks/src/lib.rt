// What the planner's calls check before they do anything: a repertoire and its pile, the table to begin with, and the
// repertoire and the table to go on with. A check changes nothing; it answers the first refusal that applies.
#![tactic(auto)]

mod links;
mod repertoires;
mod tables;

pub use repertoires::check_repertoire;
pub use tables::{check_begin, check_call};
