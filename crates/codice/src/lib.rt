// The codice fiscale of rules 45 and 46: 16 code points in groups, or 11 of an integer text.
#![tactic(auto)]

mod groups;
mod integer;
mod points;

pub use groups::codice_fiscale;
pub use integer::castable_integer;
