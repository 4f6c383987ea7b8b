#![tactic(auto)]

//! Divides, joins, anti-joins, aggregates and checks rows for callers in C, on the calling thread.

mod agg;
mod anti;
mod check;
mod dip;
mod export;
mod join;
mod rows;
mod tiles;
