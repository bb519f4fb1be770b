// A tally: 53 counts over lines, by rule and verdict (docs/RULES.md, Counting lines).
#![tactic(auto)]

mod cells;
mod counts;
mod counts_text;
mod numeral;

pub use counts::{Fed, count, feed, feed_line, fewer, fresh, left};
pub use counts_text::put_text;
