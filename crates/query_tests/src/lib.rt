//! Black-box tests of queries: hits and gaps of parts, joins, anti-joins and aggregates by several workers, the rows of
//! a point, and rows by their ids.
#![tactic(auto)]

#[cfg(test)]
mod bundles;
#[cfg(test)]
mod classes;
#[cfg(test)]
mod gates;
#[cfg(test)]
mod generated;
#[cfg(test)]
mod generated_aggregates;
#[cfg(test)]
mod generated_anti_joins;
#[cfg(test)]
mod generated_joins;
#[cfg(test)]
mod joins;
#[cfg(test)]
mod lookups;
#[cfg(test)]
mod merges;
#[cfg(test)]
mod pieces;
#[cfg(test)]
mod queries;
#[cfg(test)]
mod tables;
