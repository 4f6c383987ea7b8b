//! Results made from hits.

ghost use Rattle.std.specs.Prelude.{◌≡◌};
ghost use Rattle.merge_core.specs.declared.hit.Hit.{Hit};

use crate::Hit;

/// A value that a merge makes from each hit as soon as it is found. The hit itself isn't kept.
pub trait FromHit: Drop {
    // The value for a hit.
    ghost from_hit: { Hit → Self };

    /// Returns the value for a hit.
    fn from_hit(hit: Hit) -> Self
        ensures { result ≡ from_hit hit };
}

impl FromHit for Hit {
    ghost from_hit = { λ hit. hit };

    fn from_hit(hit: Hit) -> Hit {
        hit
    }
}
