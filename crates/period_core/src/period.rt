//! Periods, and relations between two of them.

ghost use Rattle.std.specs.Prelude.{◌≡◌, ℤ, ◌<ℤ◌, ◌≤ℤ◌, ◌↔◌, is_some, IsTrue, IsOk, IfOk};
ghost use Rattle.std.specs.Result.{result_ok};

use crate::Point;
use thiserror::Error;

/// The instants from `from` on and before `to`; there is always at least one. Periods are ordered by start, then end.
#[derive(Clone, Copy, Debug, PartialEq, Eq, PartialOrd, Ord)]
pub struct Period {
    /// The first instant.
    pub from: Point,
    /// The first instant after the period.
    pub to: Point,
    pub ghost ordered: { from <ℤ to },
}

/// The start of a period would not be before its end.
#[derive(Clone, Copy, Debug, PartialEq, Eq, Error)]
#[error("the start is not before the end")]
pub struct BadPeriod;

impl Period {
    ghost use Rattle.period_core.specs.Period.{Holds, HoldsIn, Overlap, HoldAlike, Includes, Precedes, PrecedesAtOnce, between, meet, before, after};

    /// Returns the period from one point on and before another.
    ///
    /// # Errors
    ///
    /// `BadPeriod` if and only if `from` is not before `to`.
    pub fn new(from: Point, to: Point) -> Result<Period, BadPeriod>
        ensures succeeds { IsOk result ↔ (from <ℤ to) }
        ensures value { IfOk result (λ p. (p.from ≡ from) × (p.to ≡ to)) }
        ensures period { result_ok result ≡ between from to }
    {
        if from < to {
            Ok(Period { from, to })
        } else {
            Err(BadPeriod)
        }
    }

    /// Returns the first instant.
    pub fn from(self) -> Point
        ensures { result ≡ self.from }
    {
        self.from
    }

    /// Returns the first instant after the period.
    pub fn to(self) -> Point
        ensures { result ≡ self.to }
    {
        self.to
    }

    /// Returns whether the periods have a common instant. Periods that touch don't overlap. Both ends are always
    /// compared: for periods in no order, a branch after the first comparison would often be mispredicted.
    #[inline(always)]
    pub fn overlaps(self, other: Period) -> bool
        ensures ends { IsTrue result ↔ ((self.from <ℤ other.to) × (other.from <ℤ self.to)) }
        ensures instants { IsTrue result ↔ Overlap self other }
        ensures shared { result ≡ is_some (meet self other) }
    {
        (self.from < other.to) & (other.from < self.to)
    }

    /// Returns whether both periods have the same instants.
    pub fn equals(self, other: Period) -> bool
        ensures ends { IsTrue result ↔ ((self.from ≡ other.from) × (self.to ≡ other.to)) }
        ensures instants { IsTrue result ↔ HoldAlike self other }
    {
        self.from == other.from && self.to == other.to
    }

    /// Returns whether this period has every instant of the other.
    pub fn contains(self, other: Period) -> bool
        ensures ends { IsTrue result ↔ ((self.from ≤ℤ other.from) × (other.to ≤ℤ self.to)) }
        ensures instants { IsTrue result ↔ Includes self other }
    {
        self.from <= other.from && other.to <= self.to
    }

    /// Returns whether the point is an instant of this period.
    pub fn holds(self, point: Point) -> bool
        ensures { IsTrue result ↔ Holds self point }
    {
        self.from <= point && point < self.to
    }

    /// Returns whether each instant is before every instant of the other.
    pub fn precedes(self, other: Period) -> bool
        ensures ends { IsTrue result ↔ (self.to ≤ℤ other.from) }
        ensures instants { IsTrue result ↔ Precedes self other }
    {
        self.to <= other.from
    }

    /// Returns whether each instant is after every instant of the other.
    pub fn succeeds(self, other: Period) -> bool
        ensures ends { IsTrue result ↔ (other.to ≤ℤ self.from) }
        ensures instants { IsTrue result ↔ Precedes other self }
    {
        other.precedes(self)
    }

    /// Returns whether this period ends where the other starts: it precedes the other, with no instant between them.
    pub fn immediately_precedes(self, other: Period) -> bool
        ensures ends { IsTrue result ↔ (self.to ≡ other.from) }
        ensures instants { IsTrue result ↔ PrecedesAtOnce self other }
    {
        self.to == other.from
    }

    /// Returns whether this period starts where the other ends: it succeeds the other, with no instant between them.
    pub fn immediately_succeeds(self, other: Period) -> bool
        ensures ends { IsTrue result ↔ (other.to ≡ self.from) }
        ensures instants { IsTrue result ↔ PrecedesAtOnce other self }
    {
        other.immediately_precedes(self)
    }

    /// Returns the common instants, or `None` if there aren't any.
    pub fn meet(&self, other: &Period) -> Option<Period>
        ensures ends { result ≡ meet self.now other.now }
        ensures instants { (t : ℤ) → HoldsIn result t ↔ (Holds self.now t × Holds other.now t) }
    {
        Period::between(self.from.max(other.from), self.to.min(other.to))
    }

    /// Returns the instants before the other's start, and those from the other's end on; `None` for each that is empty.
    pub fn minus(&self, other: &Period) -> (Option<Period>, Option<Period>)
        ensures before_ends { result.0 ≡ before self.now other.now }
        ensures after_ends { result.1 ≡ after self.now other.now }
        ensures before { (t : ℤ) → HoldsIn result.0 t ↔ (Holds self.now t × (t <ℤ other.now.from)) }
        ensures after { (t : ℤ) → HoldsIn result.1 t ↔ (Holds self.now t × (other.now.to ≤ℤ t)) }
    {
        (
            Period::between(self.from, self.to.min(other.from)),
            Period::between(self.from.max(other.to), self.to),
        )
    }

    // Returns the instants from one point on and before another, or `None` if there aren't any.
    fn between(from: Point, to: Point) -> Option<Period>
        ensures { result ≡ between from to }
    {
        Period::new(from, to).ok()
    }
}
