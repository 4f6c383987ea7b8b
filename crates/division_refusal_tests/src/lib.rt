//! Tests of refused memory when items are divided, divisions are checked, parts are merged and pieces are collected.
#![tactic(auto)]

#[cfg(test)]
mod claims;
#[cfg(test)]
mod divisions;
#[cfg(test)]
mod items;
#[cfg(test)]
mod merges;
#[cfg(test)]
mod pieces;
