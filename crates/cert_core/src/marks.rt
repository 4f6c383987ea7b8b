//! Marks for the items that a claim names.

ghost use Rattle.std.specs.Prelude.{◌≡◌, ℕ, ◌<◌, true, false, length, All, MatchOption};
ghost use Rattle.cert_core.specs.Ids.{IsDistinct, IsTwice};
ghost use Rattle.cert_core.specs.Places.{AreMarks, IsFirstUnmarked};

// Marks the items at the given indices. Returns the first index that was marked already, or `None`.
pub(crate) fn first_twice(places: &[usize], marks: &mut [bool]) -> Option<usize>
    requires within { All (λ p. p < length marks.old) places.now }
    requires none { All (λ mark. mark ≡ false) marks.old }
    ensures { MatchOption result (IsDistinct places.now × AreMarks places.now marks.new)
        (IsTwice places.now) }
{
    for place in places {
        if marks[*place] {
            return Some(*place);
        }
        marks[*place] = true;
    }
    None
}

// Returns the index of the first unmarked item, or `None`.
pub(crate) fn first_unmarked(marks: &[bool]) -> Option<usize>
    ensures { MatchOption result (All (λ mark. mark ≡ true) marks.now) (IsFirstUnmarked marks.now) }
{
    marks.iter().position(|mark| !*mark)
}
