// Completing a body by its check figure, and the list of all corrections of a refused number.
#![tactic(auto)]

mod completing;
mod entries;
mod five;
mod listing;
mod number;

pub use completing::complete;
pub use five::{Five, Row, five_of};
pub use listing::list;
