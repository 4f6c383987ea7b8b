//! A value on its way from a worker to the collector.

/// The value of a pair, and the pair's number in the job.
#[derive(Drop)]
pub(crate) struct Numbered<T> {
    pub number: u64,
    pub value: T,
}
