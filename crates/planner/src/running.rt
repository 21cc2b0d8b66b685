// A run on a lent table, behind the checks.
ghost use Rattle.std.specs.Prelude.{◌≡◌, ◌≤◌, length};
ghost use Rattle.rule.specs.Preferences.{preferred_by};
ghost use Rattle.trails.specs.Repertoires.{held_by, link_count};
ghost use Rattle.trails.specs.Steps as steps;
ghost use Rattle.table.specs.Held.{held_in};
ghost use Rattle.table.specs.Numbers.{most_numbers};
ghost use Rattle.planner.specs.Endings.{ending_by};

use super::stepping::advance;
use repertoire::Repertoire;
use rule::{Preference, Rule};
use scale::Scale;
use table::TrailTable;
use trails::{Ending, Outlook, Run};

// How a run ends for what lies ahead, unless the best open trail can be expanded.
fn ending_of(outlook: Outlook) -> Option<Ending>
    ensures { result ≡ ending_by outlook }
{
    match outlook {
        Outlook::NoneOpen => Some(Ending::NoWay),
        Outlook::AtGoal(_) => Some(Ending::Plan),
        Outlook::Cramped(_) => Some(Ending::Full),
        Outlook::Roomy(_) => None,
    }
}

// Steps until something ends it, or until it has made as many expansions as the budget says.
pub fn run_on<S: Scale, R: Rule>(
    repertoire: Repertoire<'_, S>,
    preference: &Preference<S, R>,
    table: &mut TrailTable<'_, S>,
    budget: u16,
) -> Run
    requires places { length table.old.trails.now ≤ most_numbers }
    requires links { link_count (held_by repertoire) ≤ most_numbers }
    ensures ran { record { expansions = result.expansions; ending = result.ending; table = held_in table.new } ≡ steps.ran_from S.Scale (held_by repertoire.entry) (preferred_by S.Scale R.Rule preference.now) budget (held_in table.old) }
    ensures long { length table.new.trails.now ≡ length table.old.trails.now }
    ensures same { table.new.trails.ghost_name ≡ table.old.trails.ghost_name }
{
    for made in 0..budget {
        if let Some(ending) = ending_of(advance(repertoire, preference, table)) {
            return Run {
                expansions: made,
                ending,
            };
        }
    }
    Run {
        expansions: budget,
        ending: Ending::Spent,
    }
}
