//! Black-box tests of running scripts, of their readers and writers, and of the program's words.
#![tactic(auto)]

#[cfg(test)]
mod damages;
#[cfg(test)]
mod pieces;
#[cfg(test)]
mod scripts;
#[cfg(test)]
mod streams;
#[cfg(test)]
mod words;
