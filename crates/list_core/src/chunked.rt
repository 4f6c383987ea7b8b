//! Lists in chunks.

ghost use Rattle.std.specs.Prelude.{◌≡◌, ◌<◌, ◌∷◌, ◌++◌, [], All, List, IfOk, flat_map, MatchOption, length, slice_get};
ghost use Rattle.std.specs.Option.{option_copied};
ghost use Rattle.list_core.specs.Chunks.{all_in};

use std::alloc::{AllocError, Global};
use std::marker::Model;

/// A list stored as a sequence of chunks, so that lists can be concatenated without moving their items. Contracts see
/// the list of all items.
#[derive(Debug, Drop)]
pub struct ChunkedList<T> {
    chunks: Vec<Vec<T>>,
    len: usize,
}

impl<T> Model for ChunkedList<T> {
    ghost use Rattle.std.specs.Prelude.{List};
    ghost use Rattle.list_core.specs.Chunks.{AreChunks, all_in};

    ghost Value = { List T };

    ghost view = { λ l. all_in l.chunks.items };

    ghost invariant = { λ l. AreChunks l.chunks.items l.len };
}

impl<T> ChunkedList<T> {
    /// Returns the number of items.
    pub fn len(&self) -> usize
        ensures { result ≡ length self.now }
    {
        self.len
    }

    /// Returns the chunks. No chunk is empty.
    pub fn chunks(&self) -> &[Vec<T>]
        ensures items { all_in result.now ≡ self.now }
        ensures some { All (λ chunk. 0 < length chunk.items) result.now }
    {
        &self.chunks
    }

    /// Returns the item at index `i`, or `None` if `i` is past the end.
    pub fn get(&self, i: usize) -> Option<&T>
        ensures { option_copied result ≡ slice_get self.now i }
    {
        get_in(&self.chunks, i)
    }

    /// Returns the first item, or `None` if the list is empty.
    pub fn first(&self) -> Option<&T>
        ensures { MatchOption result (self.now ≡ []) (λ first. (back : List T)
            × (self.now ≡ first.now ∷ back)) }
    {
        let (chunk, _) = self.chunks.split_first()?;
        let (first, _) = chunk.split_first()?;
        Some(first)
    }

    /// Returns the last item, or `None` if the list is empty.
    pub fn last(&self) -> Option<&T>
        ensures { MatchOption result (self.now ≡ [])
            (λ last. (front : List T) × (self.now ≡ front ++ last.now ∷ [])) }
    {
        let (chunk, _) = self.chunks.split_last()?;
        let (last, _) = chunk.split_last()?;
        Some(last)
    }
}

impl<T: Drop> ChunkedList<T> {
    /// Returns a list that has these items as one chunk.
    ///
    /// # Errors
    ///
    /// `AllocError` if an allocation is refused; the items are then dropped.
    pub fn of(alloc: Global, items: Vec<T>) -> Result<ChunkedList<T>, AllocError>
        ensures { IfOk result (λ list. list ≡ items.items) }
    {
        let len = items.len();
        let mut chunks = Vec::new(alloc);
        if !items.is_empty() {
            chunks.push(items)?;
        }
        Ok(ChunkedList { chunks, len })
    }

    /// Returns this list followed by `later`.
    ///
    /// # Errors
    ///
    /// `AllocError` if an allocation is refused; both lists are then dropped.
    pub fn followed_by(self, later: ChunkedList<T>) -> Result<ChunkedList<T>, AllocError>
        ensures { IfOk result (λ list. list ≡ self ++ later) }
    {
        let mut chunks = self.chunks;
        let mut others = later.chunks;
        let Some(len) = self.len.checked_add(later.len) else {
            return Err(AllocError);
        };
        chunks.append(&mut others)?;
        Ok(ChunkedList { chunks, len })
    }

    /// Concatenates the lists, in their order.
    ///
    /// # Errors
    ///
    /// `AllocError` if an allocation is refused; the lists are then dropped.
    pub fn of_all(alloc: Global, lists: Vec<ChunkedList<T>>) -> Result<ChunkedList<T>, AllocError>
        ensures { IfOk result (λ list. list ≡ flat_map (λ items. items) lists.items) }
    {
        let mut all = ChunkedList::of(alloc, Vec::new(alloc))?;
        for list in lists {
            all = all.followed_by(list)?;
        }
        Ok(all)
    }

    /// Returns the list with its first item replaced by `item`; an empty list stays empty.
    pub fn with_first(self, item: T) -> ChunkedList<T>
        ensures { (first : T) (back : List T) → self ≡ first ∷ back → result ≡ item ∷ back }
    {
        let mut chunks = self.chunks;
        if !chunks.is_empty() {
            chunks[0][0] = item;
        }
        ChunkedList {
            chunks,
            len: self.len,
        }
    }

    /// Returns the list without its last item; an empty list stays empty.
    ///
    /// # Errors
    ///
    /// `AllocError` if an allocation is refused; the items are then dropped.
    pub fn without_last(self) -> Result<ChunkedList<T>, AllocError>
        ensures { (front : List T) (last : T) → self ≡ front ++ last ∷ []
            → IfOk result (λ rest. rest ≡ front) }
    {
        let mut chunks = self.chunks;
        let Some(mut chunk) = chunks.pop() else {
            return Ok(ChunkedList { chunks, len: 0 });
        };
        chunk.pop();
        if !chunk.is_empty() {
            chunks.push(chunk)?;
        }
        Ok(ChunkedList {
            chunks,
            len: self.len - 1,
        })
    }
}

// Returns the item at an index of the concatenated chunks.
fn get_in<T>(chunks: &[Vec<T>], place: usize) -> Option<&T>
    ensures { option_copied result ≡ slice_get (all_in chunks.now) place }
{
    let mut left = place;
    for chunk in chunks {
        if left < chunk.len() {
            return item_at(chunk, left);
        }
        left -= chunk.len();
    }
    None
}

// Returns the item at an index of one chunk.
fn item_at<T>(chunk: &[T], place: usize) -> Option<&T>
    ensures { option_copied result ≡ slice_get chunk.now place }
{
    chunk.get(place)
}
