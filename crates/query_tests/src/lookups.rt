//! A test of finding rows by a point.

use crate::joins::worked_join;
use crate::tables::{date, side};
use query_core::at;
use std::process::Abort;
use table_core::SharedRows;

// Checks that the rows have these ids.
fn check_order(rt: &impl Abort, rows: &SharedRows, ids: &[u64]) {
    assert!(rt; rows.len() == ids.len());
    for place in 0..rows.len() {
        assert!(rt; rows.at(place).id() == ids[place]);
    }
}

#[test]
fn gives_the_rows_of_a_point(rt: HostRuntime) {
    let day = date(1, 7).expect(&rt, "a day");
    let pair = worked_join(&rt);
    let rows = at(rt.alloc(), side(&rt, &pair.right), day).expect(&rt, "memory");
    check_order(&rt, &rows, &[2, 3]);
}
