//! The steps of a class.

use merge_core::Steps;

/// The tally of some items of a class at each instant.
#[derive(Drop)]
pub(crate) struct ClassSteps {
    pub class: u64,
    pub steps: Steps,
}
