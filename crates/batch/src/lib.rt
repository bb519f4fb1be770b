// Many lines at once, answered in numbers.
#![tactic(auto)]

mod answers;
mod each;
mod tallied;

pub use answers::answer_lines;
pub use each::Batch;
pub use tallied::tally_lines;
