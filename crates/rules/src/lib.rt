// The seventeen rules: what is fixed about each, which of them reads a field, and what it finds in a text.
#![tactic(auto)]

mod choice;
mod judge;
mod rule;

pub use choice::rule_for;
pub use judge::finding;
pub use rule::{Fixed, Rule};
