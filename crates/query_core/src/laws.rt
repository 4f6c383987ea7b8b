//! A law on joins and anti-joins.

ghost use Rattle.query_core.specs.Outer.{
  EachInstantIsListed,
  NoInstantIsListedTwice,
  NoOtherIsListed,
};

/// The join and the anti-join of the same rows by the same columns partition the instants of left rows, so together
/// they are a join that keeps unmatched left rows. Each instant that a left row holds is in a row of the join or of
/// the anti-join with its id. If ids are ascending, it is never in both, and the rows with its id hold no other
/// instant.
pub fn join_and_anti_share_left_rows()
    ensures each { EachInstantIsListed }
    ensures once { NoInstantIsListedTwice }
    ensures only { NoOtherIsListed }
{}
