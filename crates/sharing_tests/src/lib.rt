//! Tests from outside of a store that callers on several threads share.
#![tactic(auto)]

#[cfg(test)]
mod changes;
#[cfg(test)]
mod crowds;
#[cfg(test)]
mod gatherings;
#[cfg(test)]
mod limits;
#[cfg(test)]
mod meetings;
#[cfg(test)]
mod posts;
#[cfg(test)]
mod queues;
#[cfg(test)]
mod rounds;
#[cfg(test)]
mod snapshots;
#[cfg(test)]
mod turns;
