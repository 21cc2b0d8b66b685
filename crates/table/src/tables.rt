// A table: a lent row of places of which the first are used.
ghost use Rattle.std.specs.Prelude.{◌≡◌, ◌+◌, ◌<◌, ◌≤◌, length, IfSome};
ghost use Rattle.rule.specs.Preferences.{preferred_by};
ghost use Rattle.trails.specs.Repertoires.{held_by, link_count, leaving_count};
ghost use Rattle.trails.specs.Tables.{trail_at};
ghost use Rattle.trails.specs.Choosing.{best};
ghost use Rattle.trails.specs.Expanding.{expanded};
ghost use Rattle.trails.specs.Steps as steps;
ghost use Rattle.table.specs.Chosen.{place_of, Ready};
ghost use Rattle.table.specs.Numbers.{most_numbers};

use super::choosing::best_open;
use super::expanding::expand;
use super::looking::outlook;
use repertoire::Repertoire;
use rule::{Preference, Rule};
use scale::Scale;
use trails::{Outlook, Trail};

// The row belongs to whoever lends it, who knows what it holds once the table is let go. No more places are used than there
// are.
#[derive(Drop)]
pub struct TrailTable<'a, S> {
    pub trails: &'a mut [Trail<S>],
    pub used: usize,
    ghost fits: { used ≤ length trails.now },
}

impl<'a, S: Scale> TrailTable<'a, S> {
    ghost use Rattle.table.specs.Held.{held_in};

    // The place of the best open trail, if any is open.
    pub fn best_open<R: Rule>(
        &self,
        repertoire: Repertoire<'_, S>,
        preference: &Preference<S, R>,
    ) -> Option<usize>
        ensures value { result ≡ place_of (best S.Scale (held_by repertoire.entry) (preferred_by S.Scale R.Rule preference.now) (held_in self.now)) }
        ensures within { IfSome result (λ k. k < self.now.used) }
    {
        best_open(repertoire, preference, &self.trails[..self.used])
    }

    // What lies ahead.
    pub fn outlook<R: Rule>(
        &self,
        repertoire: Repertoire<'_, S>,
        preference: &Preference<S, R>,
    ) -> Outlook
        ensures value { result ≡ steps.outlook S.Scale (held_by repertoire.entry) (preferred_by S.Scale R.Rule preference.now) (held_in self.now) }
        ensures ready { Ready S.Scale (held_by repertoire.entry) (held_in self.now) result }
    {
        outlook(repertoire, preference, self.trails, self.used)
    }

    // Expands the trail at the place.
    pub fn expand(&mut self, repertoire: Repertoire<'_, S>, place: usize)
        requires there { place < self.old.used }
        requires room { self.old.used + leaving_count (held_by repertoire) (trail_at S.Scale self.old.trails.now place).motif ≤ length self.old.trails.now }
        requires places { length self.old.trails.now ≤ most_numbers }
        requires links { link_count (held_by repertoire) ≤ most_numbers }
        ensures value { held_in self.new ≡ expanded S.Scale (held_by repertoire.entry) place (held_in self.old) }
        ensures grown { self.old.used ≤ self.new.used }
        ensures long { length self.new.trails.now ≡ length self.old.trails.now }
        ensures same { self.new.trails.ghost_name ≡ self.old.trails.ghost_name }
    {
        self.used = expand(repertoire, self.trails, self.used, place);
    }
}
