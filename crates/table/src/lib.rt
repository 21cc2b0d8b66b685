// The code on the table of trails: whether a new trail is discarded and which others it drops, the best open trail, and
// the expansion of one trail. Each function comes to its definition in the crate of the trails.
#![tactic(auto)]

mod choosing;
mod dropping;
mod expanding;
mod looking;
mod rivals;
mod tables;
mod trying;
mod withstanding;

pub use choosing::best_open;
pub use dropping::drop_beaten;
pub use expanding::expand;
pub use looking::outlook;
pub use tables::TrailTable;
pub use trying::try_trail;
pub use withstanding::is_withstood;
