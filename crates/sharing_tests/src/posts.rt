//! Notes sent through a post while the sender's thread runs on.

ghost use Rattle.std.specs.Prelude.{IfSome};
ghost use Rattle.store_core.specs.Passes.{IsNoteOf, IsPassOf};
ghost use Rattle.store_core.specs.Posts.{IsPostOf};

use crate::changes::{check_make, make};
use crate::meetings::{are_by, two_passes};
use book_core::Log;
use std::alloc::Global;
use std::sync::Wait;
use std::test::Fail;
use std::thread;
use std::thread::join;
use store_core::{Note, Pass, Post, Store};

// How often a thread checks whether a note has arrived.
const LOOKS: u64 = 10_000_000;

// Makes a table, and sends a note of it. Returns the commit's number.
fn make_and_send<R: Wait>(
    rt: &R,
    alloc: Global,
    store: &Store,
    post: &Post,
    mut pass: Pass,
) -> Option<u64>
    requires { IsPassOf store.now pass × IsPostOf store.now post.now }
{
    let number = store.commit(rt, &mut pass, make(alloc, b"a").ok()?).ok()?;
    let note = store.note(&mut pass);
    match store.send(rt, post, note) {
        Some(_) => None,
        None => Some(number),
    }
}

// Returns the note that arrives, or `None` if none does before the checks are used up.
fn wait_for_note<R: Wait>(rt: &R, store: &Store, post: &Post) -> Option<Note>
    requires { IsPostOf store.now post.now }
    ensures { IfSome result (IsNoteOf store.now) }
{
    for _ in 0..LOOKS {
        if let Some(note) = store.receive(rt, post) {
            return Some(note);
        }
        thread::yield_now();
    }
    None
}

// Hears the note that arrives, makes a table, and returns the log.
fn hear_and_make<R: Wait>(
    rt: &R,
    alloc: Global,
    store: &Store,
    post: &Post,
    mut pass: Pass,
) -> Option<Log>
    requires { IsPassOf store.now pass × IsPostOf store.now post.now }
{
    let note = wait_for_note(rt, store, post)?;
    store.hear(&mut pass, note);
    store.commit(rt, &mut pass, make(alloc, b"b").ok()?).ok()?;
    store.log(rt, &mut pass).ok()
}

#[test]
fn a_note_goes_to_a_thread_that_runs(rt: HostRuntime) -> Result<(), Fail> {
    let alloc = rt.alloc();
    let (store, first, second) = two_passes(alloc)?;
    let post = store.open_post(alloc)?;
    let (number, log) = join(
        &rt,
        || make_and_send(&rt, alloc, &store, &post, first),
        || hear_and_make(&rt, alloc, &store, &post, second),
    );
    assert!(rt; number == Some(1));
    let log = log.expect(&rt, "a log");
    assert!(rt; log.len() == 2);
    assert!(rt; are_by(log.as_slice(), 1));
    assert!(rt; store.receive(&rt, &post).is_none());
    Ok(())
}

#[test]
fn a_newer_note_sends_the_older_back(rt: HostRuntime) -> Result<(), Fail> {
    let (store, mut first, mut second) = two_passes(rt.alloc())?;
    let post = store.open_post(rt.alloc())?;
    assert!(rt; store.send(&rt, &post, store.note(&mut second)).is_none());
    check_make(&rt, &store, &mut first, b"a", Ok(1));
    let older = store.send(&rt, &post, store.note(&mut first));
    assert!(rt; older.is_some());
    let newer = store.receive(&rt, &post).expect(&rt, "a note");
    store.hear(&mut second, newer);
    let log = store.log(&rt, &mut second).expect(&rt, "a log");
    assert!(rt; log.len() == 1);
    Ok(())
}
