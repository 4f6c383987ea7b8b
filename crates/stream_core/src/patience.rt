//! How many more interruptions a run tolerates.

ghost use Rattle.std.specs.Prelude.{◌≡◌, ◌+◌, ◌≤◌, nat_lt};
ghost use Rattle.std.specs.Bool.{OnTrue};
ghost use Rattle.stream_core.specs.Faults.{retry_limit};

/// The most reads and writes of a run that are retried.
const RETRIES: u32 = 1_000;

/// How often an interrupted read or write may still be retried.
#[derive(Clone, Copy, Debug)]
pub struct Patience {
    /// The number of retries left.
    pub left: u32,
}

impl Patience {
    /// Returns the patience of a whole run: 1,000 retries.
    pub fn new() -> Self
        ensures { result.left ≡ retry_limit }
    {
        Patience { left: RETRIES }
    }

    /// Uses up one retry. Returns whether there was one.
    pub fn try_again(&mut self) -> bool
        ensures tries { result ≡ nat_lt 0 self.old.left }
        ensures spent { OnTrue result (self.new.left + 1 ≡ self.old.left) }
        ensures kept { self.new.left ≤ self.old.left }
    {
        if self.left == 0 {
            return false;
        }
        self.left -= 1;
        true
    }
}
