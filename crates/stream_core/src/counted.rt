//! A reader or a writer that counts its failed calls.
ghost use Rattle.std.specs.Prelude.{◌≡◌, ◌≤◌};
ghost use Rattle.std.specs.Result.{is_err};
ghost use Rattle.std.specs.Io.{ReadsAtMost, WritesAtMost};
ghost use Rattle.std.specs.Io.KnownBytes.{ReadConsumes, WriteAppends};
ghost use Rattle.stream_core.specs.FailureCount.{count_after, is_failed_write};

use std::io::{self, Read, Write};

/// A reader or a writer, and how many of its calls have failed.
#[derive(Drop)]
pub struct Counted<T> {
    inner: T,
    failures: u64,
}

impl<T> Counted<T> {
    ghost use Rattle.stream_core.specs.Counted.{inner_of, failures_of};

    /// Wraps a reader or a writer; no call has failed yet.
    pub fn new(inner: T) -> Self
        ensures inner { inner_of result ≡ inner }
        ensures none { failures_of result ≡ 0 }
    {
        Counted { inner, failures: 0 }
    }

    /// Returns how many calls have failed. The count stays at the greatest `u64` once it reaches it.
    pub fn failures(&self) -> u64
        ensures { result ≡ failures_of self.now }
    {
        self.failures
    }

    /// Returns the reader or writer underneath.
    pub fn into_inner(self) -> T
        ensures { result ≡ inner_of self }
    {
        self.inner
    }

    // Counts a call if it failed.
    fn note(&mut self, failed: bool)
        ensures count { failures_of self.new ≡ count_after (failures_of self.old) failed }
        ensures grows { failures_of self.old ≤ failures_of self.new }
        ensures inner { inner_of self.new ≡ inner_of self.old }
    {
        if failed {
            self.failures = self.failures.saturating_add(1);
        }
    }
}

impl<R: Read> Counted<R> {
    ghost use Rattle.stream_core.specs.Counted.{inner_of, failures_of};

    /// Reads once from the reader underneath, and returns its result. An error counts as a failed call, even an
    /// interruption.
    pub fn read(&mut self, buf: &mut [u8]) -> io::Result<usize>
        ensures bound { ReadsAtMost result buf.new }
        ensures bytes { ReadConsumes
            (R.remaining (inner_of self.old)) (R.remaining (inner_of self.new)) result buf.new }
        ensures count { failures_of self.new ≡ count_after (failures_of self.old) (is_err result) }
        ensures grows { failures_of self.old ≤ failures_of self.new }
    {
        let answer = self.inner.read(buf);
        self.note(answer.is_err());
        answer
    }
}

impl<W: Write> Counted<W> {
    ghost use Rattle.stream_core.specs.Counted.{inner_of, failures_of};

    /// Writes once to the writer underneath, and returns its result. An error counts as a failed call, even an
    /// interruption, and so does a write that accepts none of some bytes.
    pub fn write(&mut self, buf: &[u8]) -> io::Result<usize>
        ensures bound { WritesAtMost result buf.now }
        ensures bytes { WriteAppends (W.contents (inner_of self.old))
            (W.contents (inner_of self.new)) result buf.now }
        ensures count { failures_of self.new
            ≡ count_after (failures_of self.old) (is_failed_write result buf.now) }
        ensures grows { failures_of self.old ≤ failures_of self.new }
    {
        let answer = self.inner.write(buf);
        let failed = match &answer {
            Ok(taken) => *taken == 0 && !buf.is_empty(),
            Err(_) => true,
        };
        self.note(failed);
        answer
    }
}
