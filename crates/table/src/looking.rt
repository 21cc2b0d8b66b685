// What lies ahead of a table.
ghost use Rattle.std.specs.Prelude.{◌≡◌, ◌≤◌, length};
ghost use Rattle.rule.specs.Preferences.{preferred_by};
ghost use Rattle.trails.specs.Repertoires.{held_by};
ghost use Rattle.trails.specs.Tables.{tabled};
ghost use Rattle.trails.specs.Steps as steps;
ghost use Rattle.table.specs.Chosen.{Ready};

use super::choosing::best_open;
use repertoire::{Repertoire, leaving};
use rule::{Preference, Rule};
use scale::Scale;
use trails::{Outlook, Trail};

// Whether a trail is open, and of the best open one whether it is at the goal and whether it has room to be expanded.
pub fn outlook<S: Scale, R: Rule>(
    repertoire: Repertoire<'_, S>,
    preference: &Preference<S, R>,
    trails: &[Trail<S>],
    used: usize,
) -> Outlook
    requires { used ≤ length trails.now }
    ensures value { result ≡ steps.outlook S.Scale (held_by repertoire.entry) (preferred_by S.Scale R.Rule preference.now) (tabled trails.now used) }
    ensures ready { Ready S.Scale (held_by repertoire.entry) (tabled trails.now used) result }
{
    let Some(place) = best_open(repertoire, preference, &trails[..used]) else {
        return Outlook::NoneOpen;
    };
    let trail = trails[place];
    if trail.motif == repertoire.header.goal {
        return Outlook::AtGoal(place);
    }
    if leaving(repertoire.links, trail.motif) <= trails.len() - used {
        Outlook::Roomy(place)
    } else {
        Outlook::Cramped(place)
    }
}
