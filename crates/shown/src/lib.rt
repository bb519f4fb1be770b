// What the commands of examples are made of: the words of a line, and what is shown of a text, a finding or a code.
#![tactic(auto)]

mod codes;
mod escaped;
mod findings;
mod texts;
mod words;

pub use codes::show_code;
pub use escaped::show;
pub use findings::show_figure;
pub use texts::{show_steps, show_text};
pub use words::{decimal, decimal_up_to, split_word};
