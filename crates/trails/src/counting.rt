// That S counts what it should.
ghost use Rattle.std.specs.Prelude.{◌≡◌, true};
ghost use Rattle.trails.specs.Repertoires.{Repertoire};
ghost use Rattle.trails.specs.Counts.{Enumerated};

use scale::Scale;

// S counts an enumeration. In every repertoire it lists each path from the start that repeats no motif once, and nothing
// else.
pub fn simple_paths_are_listed_once<S: Scale>() -> bool
    ensures value { result ≡ true }
    ensures listed { (r : Repertoire S) → Enumerated S.Scale r }
{
    true
}
