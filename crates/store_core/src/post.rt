//! Posts, which pass notes between threads.

ghost use Rattle.std.specs.Prelude.{◌≡◌, IfOk, IfSome};
ghost use Rattle.store_core.specs.PostRule.{IsOfStore, KeepsNotesOf, TakesSlot};

use crate::pass::Note;
use crate::store::Store;
use atomic_table::{Play, Table, TableRule};
use row_core::NoMemory;
use std::alloc::Global;
use std::sync::Wait;
use std::thread;

// The indexes of the word and of the slot in the table.
const GATE: usize = 0;

const SLOT: usize = 0;

// The values of the gate: the slot is in place, or a caller has it.
const OPEN: u64 = 0;

const SHUT: u64 = 1;

// The rule: a note in the slot is one of the store that the table was made with.
struct OneStore;

impl TableRule<Option<Note>, Store, Store> for OneStore {
    ghost holds = { KeepsNotesOf };

    ghost first = { λ store. store };
}

// Shuts the gate; a caller that found it open has the slot.
struct Shut;

impl Play<Option<Note>, Store> for Shut {
    ghost then = { λ st m n w. TakesSlot m n w };
}

// Opens the gate, with the slot back in place.
struct Reopen;

impl Play<Option<Note>, Store> for Reopen {
    ghost then = { λ st m n w. Unit {0} };
}

/// A mailbox for one note of a store, shared by threads. Any note in it is of that store.
#[derive(Drop)]
pub struct Post {
    table: Table<Option<Note>, Store, Store, OneStore, Global>,
    ghost words: { table.shared.table_id.words ≡ 1 },
    ghost slots: { table.shared.table_id.slots ≡ 1 },
}

impl Post {
    // Replaces the content of the slot, and returns the old content.
    fn exchange<R: Wait>(&self, rt: &R, new: Option<Note>) -> Option<Note>
        requires { IsOfStore self.now.table.shared.key new }
        ensures { IsOfStore self.now.table.shared.key result }
    {
        for _ in rt.forever() {
            let (found, mut seat) = self.table.shared.swap_new_seat::<Shut>(GATE, SHUT);
            if found == OPEN {
                let old = self.table.shared.exchange(&mut seat, SLOT, new);
                self.table.shared.store::<Reopen>(&mut seat, GATE, OPEN);
                return old;
            }
            thread::yield_now();
        }
        unreachable!()
    }
}

impl Store {
    ghost use Rattle.store_core.specs.Passes.{IsNoteOf};
    ghost use Rattle.store_core.specs.Posts.{IsPostOf};

    /// Returns an empty post for notes of this store.
    pub fn open_post(&self, alloc: Global) -> Result<Post, NoMemory>
        ensures { IfOk result (IsPostOf self.now) }
    {
        let (table, _) = Table::vacant(alloc, &[OPEN], 1, self)?;
        Ok(Post { table })
    }

    /// Puts a note into the post, and returns the note that it replaces, if nobody took that one. Counts no call.
    pub fn send<R: Wait>(&self, rt: &R, post: &Post, note: Note) -> Option<Note>
        requires post { IsPostOf self.now post.now }
        requires note { IsNoteOf self.now note }
        ensures { IfSome result (IsNoteOf self.now) }
    {
        post.exchange(rt, Some(note))
    }

    /// Takes the note out of the post, if there is one. Counts no call.
    pub fn receive<R: Wait>(&self, rt: &R, post: &Post) -> Option<Note>
        requires { IsPostOf self.now post.now }
        ensures { IfSome result (IsNoteOf self.now) }
    {
        post.exchange(rt, None)
    }
}
