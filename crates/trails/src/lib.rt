// The records of the planner and the meaning of its calls, as definitions in specs/; the promise over whole runs and its
// proof. No call stands here.
#![tactic(auto)]

mod answers;
mod counting;
mod guides;
mod meanings;
mod outlooks;
mod sampling;
mod standings;
mod states;
mod trails;

pub use answers::{Ending, Run, Step};
pub use counting::simple_paths_are_listed_once;
pub use guides::guide_of;
pub use meanings::answers_mean_what_they_say;
pub use outlooks::Outlook;
pub use sampling::samples_stand;
pub use standings::{Settled, Standing};
pub use states::State;
pub use trails::Trail;
