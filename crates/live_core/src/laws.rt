//! Laws about the statements that are complete while a script is still arriving.
ghost use Rattle.std.specs.Prelude.{◌≡◌, ◌++◌, List, ℕ};
ghost use Rattle.script_core.specs.Script.{AreStatementsOf, Done};
ghost use Rattle.live_core.specs.Portions.{AreDone};

/// The same statements are complete, with the same answers, in whatever portions the bytes arrive. They are the first
/// statements of every script that begins with these bytes.
pub fn portions_make_no_difference()
    ensures exists { (bytes : List ℕ) → (dones : List Done) × AreDone bytes dones }
    ensures one { (bytes : List ℕ) (one other : List Done) → AreDone bytes one → AreDone bytes other
        → one ≡ other }
    ensures first { (bytes more : List ℕ) (dones all : List Done) → AreDone bytes dones
        → AreStatementsOf (bytes ++ more) all → (later : List Done) × (all ≡ dones ++ later) }
{}
