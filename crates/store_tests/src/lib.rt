//! Tests from outside of points, rows, tables and books.
#![tactic(auto)]

#[cfg(test)]
mod books;
#[cfg(test)]
mod fixtures;
#[cfg(test)]
mod keys;
#[cfg(test)]
mod points;
#[cfg(test)]
mod portions;
#[cfg(test)]
mod rows;
