//! Tests of failing reads and writes of a script, and of refused memory when the program's words are read.
#![tactic(auto)]

#[cfg(test)]
mod counted;
#[cfg(test)]
mod streams;
#[cfg(test)]
mod words;
