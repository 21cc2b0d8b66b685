// Where the planner stands between two calls. Both records are plain: who may make or change one is settled above.
use repertoire::Header;
use rule::Preference;

// While it looks for a plan: what it was begun with (header, number of links, places of the table), how many places of
// the table are used, and the limits and the rule in force, which say what is preferred.
#[derive(Drop)]
pub struct Standing<S, R> {
    pub header: Header,
    pub links: u16,
    pub places: u16,
    pub used: u16,
    pub preference: Preference<S, R>,
}

// With a plan: the place of the plan's trail, its cost and its held set.
#[derive(Drop)]
pub struct Settled<S, R> {
    pub standing: Standing<S, R>,
    pub place: u16,
    pub cost: S,
    pub held: u8,
}
