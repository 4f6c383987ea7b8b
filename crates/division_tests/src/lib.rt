//! Black-box tests of divisions, and of checks of divisions that others made.
#![tactic(auto)]

#[cfg(test)]
mod checks;
#[cfg(test)]
mod divisions;
