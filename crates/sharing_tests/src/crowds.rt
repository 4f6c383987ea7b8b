//! Many callers at once: one history has all their answers, at points that don't go back for any caller.

ghost use Rattle.std.specs.Prelude.{◌≡◌};
ghost use Rattle.store_core.specs.Passes.{IsPassOf};

use crate::changes::{load, make};
use book_core::BookRefused;
use row_core::{Failure, Name};
use std::alloc::Global;
use std::sync::Wait;
use std::test::Fail;
use std::thread;
use store_core::{Pass, Store, StoreRefused};

// The number of calls of each caller.
const CALLS: u64 = 1_000;

// The answer to a call.
#[derive(Clone, Copy, PartialEq, Eq, Debug, Drop)]
enum Answer {
    // A change was committed, with this number.
    Committed(u64),
    // The table exists already.
    Exists,
    // A snapshot has this number, and shows this many rows.
    Shown(u64, u64),
    // A log has this many entries, whose callers have this hash.
    Logged(u64, u64),
}

// Returns the hash of the callers of commits, with one more.
fn mixed(sum: u64, by: u32) -> u64 {
    (sum % 1_000_003) * 31 + by as u64
}

// Makes the table; only the first caller succeeds.
fn make_table<R: Wait>(rt: &R, alloc: Global, store: &Store, pass: &mut Pass) -> Option<Answer>
    requires { IsPassOf store.now pass.old }
    ensures { IsPassOf store.now pass.new }
{
    match store.commit(rt, pass, make(alloc, b"t").ok()?) {
        Ok(number) => Some(Answer::Committed(number)),
        Err(Failure::Refused(StoreRefused::Book(BookRefused::TableExists))) => Some(Answer::Exists),
        Err(_) => None,
    }
}

fn look<R: Wait>(rt: &R, store: &Store, pass: &mut Pass) -> Option<Answer>
    requires { IsPassOf store.now pass.old }
    ensures { IsPassOf store.now pass.new }
{
    let snapshot = store.snapshot(rt, pass, None).ok()?;
    let rows = snapshot.rows(Name::parse(b"t").ok()?).ok()?;
    Some(Answer::Shown(snapshot.number(), rows.len() as u64))
}

// Reads the log, after hearing a note of its own.
fn read_log<R: Wait>(rt: &R, store: &Store, pass: &mut Pass) -> Option<Answer>
    requires { IsPassOf store.now pass.old }
    ensures { IsPassOf store.now pass.new }
{
    let note = store.note(pass);
    store.hear(pass, note);
    let log = store.log(rt, pass).ok()?;
    let mut sum = 0;
    for entry in log.as_slice() {
        sum = mixed(sum, entry.by);
    }
    Some(Answer::Logged(log.len() as u64, sum))
}

// Makes the call with that number: the first makes the table; then loads, snapshots and logs alternate.
fn call<R: Wait>(
    rt: &R,
    alloc: Global,
    store: &Store,
    pass: &mut Pass,
    number: u64,
) -> Option<Answer>
    requires { IsPassOf store.now pass.old }
    ensures { IsPassOf store.now pass.new }
{
    if number == 0 {
        return make_table(rt, alloc, store, pass);
    }
    match number % 3 {
        0 => match store.commit(rt, pass, load(alloc, b"t").ok()?) {
            Ok(number) => Some(Answer::Committed(number)),
            Err(_) => None,
        },
        1 => look(rt, store, pass),
        _ => read_log(rt, store, pass),
    }
}

// Makes all calls of a caller.
fn run<R: Wait>(rt: &R, alloc: Global, store: &Store, mut pass: Pass) -> Option<Vec<Answer>>
    requires { IsPassOf store.now pass }
{
    let mut answers = Vec::new(alloc);
    for number in 0..CALLS {
        answers
            .push(call(rt, alloc, store, &mut pass, number)?)
            .ok()?;
    }
    Some(answers)
}

// Records the caller of a commit. Returns false if it is recorded already, or the number is too great.
fn file(callers: &mut Vec<u32>, number: u64, caller: u32) -> bool {
    let place = number as usize;
    if place >= callers.len() || callers[place] != 0 {
        return false;
    }
    callers[place] = caller;
    true
}

// Returns the hash of the callers of the first commits, up to each one.
fn sums_of(alloc: Global, callers: &[u32]) -> Result<Vec<u64>, Fail> {
    let mut sums = Vec::new(alloc);
    let mut sum = 0;
    for caller in callers {
        sum = mixed(sum, *caller);
        sums.push(sum)?;
    }
    Ok(sums)
}

// Returns the number of commits after which the history has this answer, if it isn't less than `seen`; `None` if there
// is no such number.
fn point_of(answer: Answer, seen: u64, sums: &[u64]) -> Option<u64> {
    let (number, stands) = match answer {
        Answer::Committed(number) => (number, number > seen),
        Answer::Exists => (seen.max(1), true),
        Answer::Shown(number, rows) => (number, rows.checked_add(1) == Some(number)),
        Answer::Logged(number, sum) => (number, sums.get(number as usize) == Some(&sum)),
    };
    if stands && number >= seen {
        Some(number)
    } else {
        None
    }
}

// Returns whether the history has these answers at points in order.
fn stand_in_order(answers: &[Answer], sums: &[u64]) -> bool {
    let mut seen = 0;
    for answer in answers {
        match point_of(*answer, seen, sums) {
            Some(number) => seen = number,
            None => return false,
        }
    }
    true
}

// Records the caller of each commit in the answers.
fn file_all(callers: &mut Vec<u32>, answers: &[Answer], caller: u32) -> bool {
    for answer in answers {
        if let Answer::Committed(number) = *answer {
            if !file(callers, number, caller) {
                return false;
            }
        }
    }
    true
}

// Records the caller of each commit in all callers' answers. Returns false also if a call was refused.
fn file_lists(callers: &mut Vec<u32>, lists: &[Option<Vec<Answer>>]) -> bool {
    for (list, caller) in lists.iter().zip(1u32..5) {
        let filed = match list {
            Some(list) => file_all(callers, list, caller),
            None => false,
        };
        if !filed {
            return false;
        }
    }
    true
}

// Returns whether the history has each caller's answers at points in order.
fn lists_stand_in_order(lists: &[Option<Vec<Answer>>], sums: &[u64]) -> bool {
    for list in lists {
        let stands = match list {
            Some(list) => stand_in_order(list, sums),
            None => false,
        };
        if !stands {
            return false;
        }
    }
    true
}

// Returns whether the caller of each commit is recorded.
fn are_known(callers: &[u32]) -> bool {
    callers.iter().skip(1).all(|caller| *caller != 0)
}

#[test]
fn four_callers_stand_in_one_history(rt: HostRuntime) -> Result<(), Fail> {
    let alloc = rt.alloc();
    let (store, passes) = Store::new(alloc, 4, CALLS)?;
    let answers = thread::map_vec(
        &rt,
        passes,
        &|pass: Pass| -> Option<Vec<Answer>>
            requires { IsPassOf store pass }
        { run(&rt, alloc, &store, pass) },
    )?;
    // One commit makes the table, and each caller loads 333 times. No caller has number 0.
    let mut callers = vec![in alloc; 0u32; 1 + 1 + 4 * 333]?;
    assert!(rt; file_lists(&mut callers, &answers));
    assert!(rt; are_known(&callers));
    let sums = sums_of(alloc, &callers)?;
    assert!(rt; lists_stand_in_order(&answers, &sums));
    Ok(())
}
