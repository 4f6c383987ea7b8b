//! System periods as they are stored.

ghost use Rattle.std.specs.Prelude.{◌≡◌, is_none, Some, None};
ghost use Rattle.version_core.specs.Shown.{end_at};

use crate::commit_number::CommitNumber;
use std::marker::Model;
use std::mem::size_of;

/// The system period of a version: the commits from one on, and before another if a commit has closed the version. Each
/// version has one, so it takes only 8 bytes: 0, which is no commit's number, means that the version is open. Contracts
/// see both ends.
#[derive(Clone, Copy)]
pub(crate) struct SystemPeriod {
    from: u32,
    to: u32,
}

const _: () = prove!(size_of::<SystemPeriod>() == 8);

impl Model for SystemPeriod {
    ghost use Rattle.std.specs.Prelude.{◌==◌, if◌then◌else◌, Some, None, unwrap_or};
    ghost use Rattle.version_core.specs.Stored.{SystemPeriod};

    ghost Value = { SystemPeriod };

    ghost view = { λ s. record { from = s.from; to = if s.to == 0 then None else Some s.to } };

    ghost inverse = { λ v. record { from = v.from; to = unwrap_or v.to 0 } };
}

impl SystemPeriod {
    /// Returns the system period of a version that the commit creates.
    pub(crate) fn since(commit: CommitNumber) -> Self
        ensures { result ≡ record { from = commit; to = None } }
    {
        SystemPeriod {
            from: commit.get(),
            to: 0,
        }
    }

    /// Returns the first commit.
    pub(crate) fn from(&self) -> u32
        ensures { result ≡ self.now.from }
    {
        self.from
    }

    /// Returns the commit that closed the version, or `None` if it is open.
    pub(crate) fn to(&self) -> Option<u32>
        ensures { result ≡ self.now.to }
    {
        if self.to == 0 { None } else { Some(self.to) }
    }

    /// Returns the system period as of commit `at`: a later end counts as open.
    pub(crate) fn as_of(&self, at: u64) -> SystemPeriod
        ensures { result ≡ record { from = self.now.from; to = end_at at self.now.to } }
    {
        if self.to as u64 <= at {
            *self
        } else {
            SystemPeriod {
                from: self.from,
                to: 0,
            }
        }
    }

    /// Returns whether no commit has closed the version.
    #[inline(always)]
    pub(crate) fn is_open(&self) -> bool
        ensures { result ≡ is_none self.now.to }
    {
        self.to == 0
    }

    /// Ends the system period with the commit.
    pub(crate) fn close(&mut self, commit: CommitNumber)
        ensures { self.new ≡ record { from = self.old.from; to = Some commit } }
    {
        self.to = commit.get();
    }
}
