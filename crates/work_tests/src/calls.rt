//! Functions that workers call with each index, and ranges of indices.

ghost use Rattle.std.specs.Prelude.{◌<◌};

use std::alloc::{AllocError, Global};
use std::process::Abort;
use std::test::Fail;
use work_core::{Shares, call_each, places_within};

#[test]
fn values_are_in_the_order_of_their_indices(rt: HostRuntime) -> Result<(), Fail> {
    for workers in [1, 3, 64] {
        let values = call_each(
            &rt,
            rt.alloc(),
            5,
            workers,
            &|index: usize| -> Result<usize, AllocError>
                requires { index < 5 }
            { Ok(index + 7) },
        )?;
        assert!(rt; values.as_slice() == [7, 8, 9, 10, 11].as_slice());
    }
    Ok(())
}

#[test]
fn a_refused_call_is_out_of_memory(rt: HostRuntime) {
    for workers in [1, 3, 64] {
        let values = call_each(
            &rt,
            rt.alloc(),
            5,
            workers,
            &|index: usize| -> Result<usize, AllocError> {
                if index == 3 {
                    Err(AllocError)
                } else {
                    Ok(index)
                }
            },
        );
        assert!(rt; values.is_err());
    }
}

#[test]
fn several_workers_have_three_ranges_each(rt: HostRuntime) -> Result<(), Fail> {
    let shares = Shares::by_index(rt.alloc(), 120_000, 4)?;
    assert!(rt; shares.len() == 12);
    for number in 0..shares.len() {
        let (from, to) = places_within(shares.range(number), 120_000);
        assert!(rt; from + 10_000 == to);
    }
    Ok(())
}

#[test]
fn fewer_indices_have_as_many_ranges_for_each_worker(rt: HostRuntime) -> Result<(), Fail> {
    for (count, ranges) in [(10_000, 1), (20_000, 2), (60_000, 4), (90_000, 8)] {
        assert!(rt; Shares::by_index(rt.alloc(), count, 4)?.len() == ranges);
    }
    assert!(rt; Shares::by_index(rt.alloc(), 120_000, 1)?.len() == 1);
    Ok(())
}
