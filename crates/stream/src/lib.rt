// The line program: a stream of lines, answered and counted window by window.
#![tactic(auto)]

mod program;
mod put;
mod window;

pub use program::{Turned, turn};
