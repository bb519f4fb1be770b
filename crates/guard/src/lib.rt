// Checks of a code or a value as it is written: the strict GLN and the withdrawn codes.
#![tactic(auto)]

mod code;
mod gln;

pub use code::{Withdrawal, withdrawn};
pub use gln::gln_problem;
