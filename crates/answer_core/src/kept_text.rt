//! Caches the text of the last point that was printed. Consecutive records often have a point in common: a join's
//! records, for example, are sorted by start and then by end.
ghost use Rattle.std.specs.Prelude.{◌≡◌, IfOk};
ghost use Rattle.period_core.specs.Point.{point_text};

use period_core::{NoMemory, Point};
use std::alloc::Global;
use std::marker::Model;

/// A point and its text, or nothing yet. Contracts see the point.
#[derive(Drop)]
pub(crate) struct KeptText {
    point: Option<Point>,
    text: Vec<u8>,
}

impl Model for KeptText {
    ghost use Rattle.std.specs.Prelude.{◌≡◌, ℤ, Option, Some};
    ghost use Rattle.period_core.specs.Point.{point_text};

    ghost Value = { Option ℤ };

    ghost view = { λ kept. kept.point };

    ghost invariant = { λ kept. (point : ℤ) → kept.point ≡ Some point
        → kept.text.items ≡ point_text point };
}

impl KeptText {
    /// Returns an empty cache.
    pub(crate) fn new(alloc: Global) -> Self {
        KeptText {
            point: None,
            text: Vec::new(alloc),
        }
    }

    /// Returns the text of a point, and caches it.
    pub(crate) fn text_of(&mut self, point: Point) -> Result<&[u8], NoMemory>
        ensures { IfOk result (λ text. text.now ≡ point_text point) }
    {
        if self.point != Some(point) {
            self.point = None;
            self.text.clear();
            point.write(&mut self.text)?;
            self.point = Some(point);
        }
        Ok(&self.text)
    }
}
