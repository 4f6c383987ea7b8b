//! The state after memory is refused to points, rows, books, turns and stores.
#![tactic(auto)]

#[cfg(test)]
mod books;
#[cfg(test)]
mod fixtures;
#[cfg(test)]
mod rows;
#[cfg(test)]
mod stores;
#[cfg(test)]
mod turns;
