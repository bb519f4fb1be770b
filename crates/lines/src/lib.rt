// Lines: the answer to a line, and where a line ends.
#![tactic(auto)]

mod line;
mod split;

pub use line::{LINE_BYTES, answer_line};
pub use split::line_len;
