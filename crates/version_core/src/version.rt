//! Versions of rows, and which versions are visible as of a commit or a range of commits.

ghost use Rattle.std.specs.Prelude.{◌≡◌, ◌<◌, ◌&&◌, ◌==◌, All, IfOk, count_by, filter, length, map, nat_le};
ghost use Rattle.period_core.specs.Period.{holds_at};
ghost use Rattle.row_core.specs.declared.row.Row.{Row};
ghost use Rattle.table_core.specs.Lent.{lent_row};
ghost use Rattle.table_core.specs.Places.{at_places};
ghost use Rattle.version_core.specs.Shown.{holds_where, shows, shown, versions_as_of, is_behind};
ghost use Rattle.version_core.specs.Stored.{version_of};

use crate::shared_versions::SharedVersions;
use crate::stored::StoredVersions;
use crate::system_period::SystemPeriod;
use list_core::List;
use period_core::{Period, Point};
use row_core::{NoMemory, Row};
use std::alloc::Global;
use table_core::{RowRef, SharedRows, as_place};

/// A row with its system period: the commits from `sysfrom` on and before `systo`, or all from `sysfrom` on if the end
/// is open.
#[derive(Debug, Drop)]
pub struct Version {
    pub row: Row,
    pub sysfrom: u64,
    pub systo: Option<u64>,
}

/// Returns whether a version is visible as of commit `n`.
fn is_shown(system_period: &SystemPeriod, n: u64) -> bool
    ensures { result ≡ (nat_le system_period.now.from n && is_behind system_period.now.to n) }
{
    system_period.from() as u64 <= n && system_period.to().is_none_or(|to| n < to as u64)
}

/// Returns the rows visible as of commit `n`, without copying them.
pub(crate) fn rows_shown(
    alloc: Global,
    versions: &StoredVersions,
    n: u64,
) -> Result<SharedRows, NoMemory>
    ensures { IfOk result (λ rows. rows ≡ shown n versions.now) }
{
    let (_, system_periods) = versions.rows_and_system_periods();
    let count = count_shown(system_periods, n);
    if count == system_periods.len() {
        versions.rows()
    } else {
        versions.at_places(places_shown(alloc, versions, n, None, count)?)
    }
}

/// Returns how many versions are visible as of commit `n`.
fn count_shown(system_periods: &[SystemPeriod], n: u64) -> usize
    ensures { result ≡ count_by (λ system_period. nat_le system_period.from n
        && is_behind system_period.to n) system_periods.now }
{
    system_periods
        .iter()
        .filter(|system_period| is_shown(system_period, n))
        .count()
}

/// Returns the rows visible as of commit `n` that hold at the point, without copying them.
pub(crate) fn rows_holding(
    alloc: Global,
    versions: &StoredVersions,
    n: u64,
    point: Point,
) -> Result<SharedRows, NoMemory>
    ensures { IfOk result (λ rows. rows
        ≡ filter (λ row. holds_at point row.period) (shown n versions.now)) }
{
    versions.at_places(places_shown(alloc, versions, n, Some(point), 0)?)
}

/// Returns the positions of the rows visible as of commit `n`; with a point, only rows that hold at it. Capacity for
/// `room` positions is reserved in advance.
fn places_shown(
    alloc: Global,
    versions: &StoredVersions,
    n: u64,
    point: Option<Point>,
    room: usize,
) -> Result<Vec<u32>, NoMemory>
    ensures within { IfOk result (λ places.
        All (λ place. place < length versions.now) places.items) }
    ensures shown { IfOk result (λ places. at_places places.items (map (λ v. v.row) versions.now)
        ≡ filter (holds_where point) (shown n versions.now)) }
{
    let (drafts, system_periods) = versions.rows_and_system_periods();
    let mut places = Vec::with_capacity(alloc, room)?;
    for i in 0..drafts.len() {
        if is_listed(
            RowRef::of_draft(i, drafts.at(i)),
            &system_periods[i],
            n,
            point,
        ) {
            places.push(as_place(i)?)?;
        }
    }
    Ok(places)
}

/// Returns whether the version is visible as of commit `n`, and its row holds at the point, if one is given.
fn is_listed(row: RowRef<'_>, system_period: &SystemPeriod, n: u64, point: Option<Point>) -> bool
    ensures { result ≡ (shows n (version_of (lent_row row.entry) system_period.now)
        && holds_where point (lent_row row.entry)) }
{
    holds_where(row.period(), point) && is_shown(system_period, n)
}

/// Returns whether the period contains the point, if one is given.
fn holds_where(period: Period, point: Option<Point>) -> bool
    ensures { (row : Row) → row.period ≡ period → result ≡ holds_where point row }
{
    match point {
        None => true,
        Some(point) => period.holds(point),
    }
}

/// Versions of one table, by rising id.
pub type VersionList = List<Version>;

/// Returns the versions, as of commit `at`, whose system periods start at `last` or before and end after `m`, without
/// copying their rows.
pub(crate) fn versions_seen(
    alloc: Global,
    versions: &StoredVersions,
    at: u64,
    m: u64,
    last: u64,
) -> Result<SharedVersions, NoMemory>
    ensures { IfOk result (λ list. list ≡ versions_as_of at m last versions.now) }
{
    let (_, system_periods) = versions.rows_and_system_periods();
    let mut places = Vec::new(alloc);
    let mut seen = Vec::new(alloc);
    for i in 0..system_periods.len() {
        let system_period = system_periods[i].as_of(at);
        if is_seen(&system_period, at, m, last) {
            places.push(as_place(i)?)?;
            seen.push(system_period)?;
        }
    }
    SharedVersions::at_places(versions, places, seen)
}

/// Returns whether a system period starts at `at` or before and at `last` or before, and ends after `m`.
fn is_seen(system_period: &SystemPeriod, at: u64, m: u64, last: u64) -> bool
    ensures { result ≡ (nat_le system_period.now.from at
        && (nat_le system_period.now.from last && is_behind system_period.now.to m)) }
{
    let from = system_period.from() as u64;
    from <= at && (from <= last && system_period.to().is_none_or(|to| m < to as u64))
}
