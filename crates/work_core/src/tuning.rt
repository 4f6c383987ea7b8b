//! When another thread pays, and how much work is done at once. The answers don't depend on any of these numbers, only
//! the time that they take.

/// With fewer items, or pairs of items to compare, or rows, one thread is done before another has started.
pub const ITEMS_FOR_THREADS: usize = 16_384;

/// With fewer rows, the sort keys or the items of one side would be complete before the other side's thread has
/// started.
pub const ROWS_FOR_THREAD: usize = 4_096;

/// The smallest number of items that is sorted on several threads: fewer are sorted faster by one.
pub const ITEMS_FOR_SORT: usize = 100_000;

/// A worker with fewer items of a partition would finish before another had started.
pub const ITEMS_OF_SHARE: usize = 8_192;

/// The most ranges of indices for each of several workers. With one, all would wait for the slowest; with many, more
/// lists would be put together at the end.
pub const RANGES_OF_WORKER: u32 = 3;

/// The number of items in a sample, by whose values items are cut.
pub const SAMPLE: usize = 1_023;

/// The most pairs that a query runs before it processes their values, which limits how many values are in memory at
/// once.
pub const STRETCH_PAIRS: u64 = 65_536;

/// The most items in the parts of a stretch's pairs, without the last pair. A pair has at most as many hits as its
/// parts have items, and at most as many gaps. So this bounds the results that are held at once.
pub const STRETCH_ITEMS: u64 = 1_000_000;

/// The most items per side in a bundle of several classes. Smaller bundles would take longer to set up than to answer;
/// in larger ones many pairs of parts would share no class.
pub const BUNDLE_ITEMS: usize = 16;

/// Items of a join are cut by time if the average item would otherwise be read at least this often.
pub const READS: u64 = 256;

/// At a cut of a join's items, at least this many fewer items hold than have started since the previous cut, or than
/// half of the most that held at once since then.
pub const MORE_PASSED: usize = 16;

/// A single worker cuts an aggregate's items only if there are at least this many. Then the steps of a span are still
/// in the processor's cache when they are added, and the next span reuses its memory.
pub const ITEMS_OF_SPAN: usize = 65_536;

/// The greatest depth of an aggregate's cuts. It makes at most 64 spans, one for each of at most 64 workers.
pub const CUTS: u32 = 6;
