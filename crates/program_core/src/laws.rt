//! Laws about what words ask for.
ghost use Rattle.std.specs.Prelude.{◌≡◌, ℕ, List};
ghost use Rattle.program_core.specs.Words.{AsksFor};

use crate::Words;

/// Words ask for at most one thing.
pub fn words_ask_for_one_thing()
    ensures { (words : List (List ℕ)) (one other : Words) → AsksFor words one → AsksFor words other
        → one ≡ other }
{}
