// One step on a lent table, behind the checks.
ghost use Rattle.std.specs.Prelude.{◌≡◌, ◌≤◌, length};
ghost use Rattle.rule.specs.Preferences.{preferred_by};
ghost use Rattle.trails.specs.Repertoires.{held_by, link_count};
ghost use Rattle.trails.specs.Steps as steps;
ghost use Rattle.table.specs.Held.{held_in};
ghost use Rattle.table.specs.Numbers.{most_numbers};

use repertoire::Repertoire;
use rule::{Preference, Rule};
use scale::Scale;
use table::TrailTable;
use trails::Outlook;

// Expands the best open trail, unless none is open, it is at the goal or the places don't suffice. Answers what lay ahead.
pub fn advance<S: Scale, R: Rule>(
    repertoire: Repertoire<'_, S>,
    preference: &Preference<S, R>,
    table: &mut TrailTable<'_, S>,
) -> Outlook
    requires places { length table.old.trails.now ≤ most_numbers }
    requires links { link_count (held_by repertoire) ≤ most_numbers }
    ensures seen { result ≡ steps.outlook S.Scale (held_by repertoire.entry) (preferred_by S.Scale R.Rule preference.now) (held_in table.old) }
    ensures moved { held_in table.new ≡ steps.moved_by S.Scale (held_by repertoire.entry) (held_in table.old) result }
    ensures long { length table.new.trails.now ≡ length table.old.trails.now }
    ensures same { table.new.trails.ghost_name ≡ table.old.trails.ghost_name }
{
    let outlook = table.outlook(repertoire, preference);
    if let Outlook::Roomy(place) = outlook {
        table.expand(repertoire, place);
    }
    outlook
}
