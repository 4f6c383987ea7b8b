//! Sorting in place, on several threads if there is enough to sort.

ghost use Rattle.std.specs.Prelude.{◌≡◌, ◌<◌, ◌≤◌, List, length, IsPermutation, IsSorted, OnOk, ⊤};
ghost use Rattle.std.specs.List.Sorted.{IsSortedByKeyClosure, IsStableByKeyClosure};
ghost use Rattle.std.specs.Thread.{IsSend, IsSync};

use crate::tuning::{ITEMS_FOR_SORT, SAMPLE};
use rayon::join_mut;
use rayon::prelude::*;
use std::alloc::{AllocError, Global};
use std::cmp::Ordering;
use std::marker::{PhantomData, Send};
use std::sync::Mutex;
use std::thread::Threads;

/// An order to sort by.
trait Order<T>: Copy + Send + Sync {
    // Whether a list is in this order.
    ghost sorted: { Self → List T → Type 0 };

    // Whether items can be compared.
    ghost ready: { Self → Type 0 } = { λ _. ⊤ };

    /// Returns whether the first item comes before the second.
    fn is_before(self, a: &T, b: &T) -> bool
        requires { ready self };

    /// Sorts the items.
    fn sort(self, items: &mut [T])
        requires { ready self }
        ensures permutation { IsPermutation items.old items.new }
        ensures len { length items.new ≡ length items.old }
        ensures sorted { sorted self items.new };
}

/// The order of the items' type.
#[derive(Clone, Copy)]
struct ByOrd;

impl<T: Ord> Order<T> for ByOrd {
    ghost sorted = { λ _ xs. IsSorted T.cmp xs };

    fn is_before(self, a: &T, b: &T) -> bool {
        a.cmp(b) == Ordering::Less
    }

    fn sort(self, items: &mut [T]) {
        items.sort_unstable();
    }
}

/// The order of the keys that a closure returns.
struct ByKey<F, K> {
    key: F,
    marker: PhantomData<Mutex<K>>,
}

impl<F: Copy, K> Copy for ByKey<F, K> {}

impl<F: Copy, K> Clone for ByKey<F, K> {
    ghost is_clone = { λ x y. y.key ≡ x.key };

    fn clone(&self) -> Result<Self, AllocError> {
        Ok(ByKey {
            key: self.key,
            marker: PhantomData,
        })
    }
}

impl<T, K: Ord + Drop + Send, F: FnMut(&T) -> K + Copy + Send + Sync> Order<T> for ByKey<F, K> {
    ghost sorted = { λ o xs. IsSortedByKeyClosure F.FnMut K.cmp o.key xs };

    ghost ready = { λ o. F.IsAlwaysCallable o.key };

    fn is_before(self, a: &T, b: &T) -> bool {
        let mut key = self.key;
        let (x, y) = (key(a), key(b));
        x.cmp(&y) == Ordering::Less
    }

    fn sort(self, items: &mut [T]) {
        items.sort_unstable_by_key(self.key);
    }
}

/// Sorts the items. That many workers share many items. Equal items may be reordered.
pub fn sort_unstable<R: Threads + Sync, T: Ord + Send>(rt: &R, items: &mut Vec<T>, workers: u32)
    ensures permutation { IsPermutation items.old.items items.new.items }
    ensures len { length items.new.items ≡ length items.old.items }
    ensures sorted { IsSorted T.cmp items.new.items }
{
    sort_by(rt, items, ByOrd, workers);
}

/// Sorts the items by the keys that `key` returns, with workers as `sort_unstable` does. Items with equal keys may be
/// reordered.
pub fn sort_unstable_by_key<
    R: Threads + Sync,
    T: Send,
    K: Ord + Drop + Send,
    F: FnMut(&T) -> K + Copy + Send + Sync,
>(rt: &R, items: &mut Vec<T>, key: F, workers: u32)
    requires { F.IsAlwaysCallable key }
    ensures permutation { IsPermutation items.old.items items.new.items }
    ensures sorted { IsSortedByKeyClosure F.FnMut K.cmp key items.new.items }
{
    let by_key: ByKey<F, K> = ByKey {
        key,
        marker: PhantomData,
    };
    sort_by(rt, items, by_key, workers);
}

/// Sorts the items by the keys that `key` returns. Many items are sorted on one thread per processor, unless `workers`
/// is 1. Items with equal keys keep their order.
///
/// # Errors
///
/// `AllocError` if an allocation is refused. The items may then be unsorted, but items with equal keys keep their
/// order.
pub fn sort_by_key<
    R: Threads + Sync,
    T: Send,
    K: Ord + Drop + Send,
    F: FnMut(&T) -> K + Copy + Send + Sync,
>(rt: &R, alloc: Global, items: &mut Vec<T>, key: F, workers: u32) -> Result<(), AllocError>
    requires { F.IsAlwaysCallable key }
    ensures permutation { IsPermutation items.old.items items.new.items }
    ensures sorted { OnOk result (IsSortedByKeyClosure F.FnMut K.cmp key items.new.items) }
    ensures stable { IsStableByKeyClosure F.FnMut K.cmp key items.old.items items.new.items }
{
    if one_is_enough(items.len(), workers) {
        items.sort_by_key(key)
    } else {
        par_sort_by_key(rt, alloc, items, key)
    }
}

/// Returns whether one thread sorts `count` items for that many workers.
fn one_is_enough(count: usize, workers: u32) -> bool {
    workers < 2 || count < ITEMS_FOR_SORT
}

/// Sorts the items, if they are many in as many parts as there are workers.
fn sort_by<R: Threads + Sync, T: Send, O: Order<T>>(rt: &R, items: &mut [T], order: O, workers: u32)
    requires { O.ready order }
    ensures permutation { IsPermutation items.old items.new }
    ensures len { length items.new ≡ length items.old }
    ensures sorted { O.sorted order items.new }
{
    if !one_is_enough(items.len(), workers) {
        sort_parts(rt, items, order, workers);
    }
    // Parts are in order by now, so this only reads them once.
    order.sort(items);
}

/// Sorts the items in as many parts as there are workers, each on a thread of its own.
#[cycle(parts)]
fn sort_parts<R: Threads + Sync, T: Send, O: Order<T>>(
    rt: &R,
    items: &mut [T],
    order: O,
    workers: u32,
)
    requires { O.ready order }
    ensures permutation { IsPermutation items.old items.new }
    ensures len { length items.new ≡ length items.old }
{
    if workers > 1 && items.len() >= SAMPLE {
        let first = workers / 2;
        let at = partition(items, order, first, workers);
        let (low, high) = items.split_at_mut(at);
        sort_both(rt, low, high, order, workers);
    } else {
        order.sort(items);
    }
}

/// Sorts the items of both slices, with half of the workers for each.
#[cycle(parts)]
fn sort_both<R: Threads + Sync, T: Send, O: Order<T>>(
    rt: &R,
    low: &mut [T],
    high: &mut [T],
    order: O,
    workers: u32,
)
    requires some { 1 < workers }
    requires ready { O.ready order }
    ensures low { IsPermutation low.old low.new }
    ensures high { IsPermutation high.old high.new }
{
    let mut sort_low = ||
        requires { IsSync R.row × IsSend T.row × IsSend O.row × O.ready order
            × (1 < workers) }
        ensures { IsPermutation low.entry.now low.exit.now }
    { sort_parts(rt, low, order, workers / 2) };
    let mut sort_high = ||
        requires { IsSync R.row × IsSend T.row × IsSend O.row × O.ready order
            × (1 < workers) }
        ensures { IsPermutation high.entry.now high.exit.now }
    { sort_parts(rt, high, order, workers - workers / 2) };
    join_mut(rt, &mut sort_low, &mut sort_high);
}

/// Moves the items that come before a pivot to the front, and returns how many they are. Of `workers` equal parts of
/// the items, they are about `first`.
fn partition<T, O: Order<T>>(items: &mut [T], order: O, first: u32, workers: u32) -> usize
    requires some { SAMPLE ≤ length items.old }
    requires parts { first < workers }
    requires ready { O.ready order }
    ensures permutation { IsPermutation items.old items.new }
    ensures len { length items.new ≡ length items.old }
    ensures within { result ≤ length items.old }
{
    let last = items.len() - 1;
    let pivot = pivot_of(items, order, first, workers);
    items.swap(pivot, last);
    let mut store = 0;
    for i in 0..last {
        let is_before = order.is_before(&items[i], &items[last]);
        // This swap has no branch: an item that doesn't come before the pivot may stay where it is.
        items.swap(i, store);
        store += is_before as usize;
    }
    items.swap(store, last);
    store
}

/// Moves a sample to the front and sorts it. Returns the index of an item of it: of `workers` equal parts of the
/// sample, about `first` come before that item.
fn pivot_of<T, O: Order<T>>(items: &mut [T], order: O, first: u32, workers: u32) -> usize
    requires some { SAMPLE ≤ length items.old }
    requires parts { first < workers }
    requires ready { O.ready order }
    ensures permutation { IsPermutation items.old items.new }
    ensures len { length items.new ≡ length items.old }
    ensures within { result < length items.old }
{
    let step = items.len() / SAMPLE;
    for i in 0..SAMPLE {
        items.swap(i, i * step);
    }
    let (sample, _) = items.split_at_mut(SAMPLE);
    order.sort(sample);
    SAMPLE * first as usize / workers as usize
}
