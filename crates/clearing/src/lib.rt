// Clearing: from the two ranked lists of a kind to its outcome, and what the rule promises to the members.
#![tactic(auto)]

mod outcome;
pub mod promises;
mod rule;

pub use outcome::Outcome;
pub use rule::{clear, count_pairs};
