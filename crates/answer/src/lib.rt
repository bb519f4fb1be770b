// The answer of a check (docs/RULES.md, The answer): one record by value, of verdict, rule number, severity and reason.
#![tactic(auto)]

mod numeral;
mod reason;
mod record;
mod severity;
mod verdict;

pub use numeral::{put_field, put_numeral};
pub use reason::Reason;
pub use record::{Answer, accepted, no_rule, refused, unread};
pub use severity::Severity;
pub use verdict::Verdict;
