// The one way from a content to an answer, and the checks that go it.
#![tactic(auto)]

mod answers;
mod judge;
mod reading;

pub use answers::{
    check, check_by, eas_value, is_valid_creditor_identifier, is_valid_iban_checksum,
};
pub use judge::{Creditor, Iban, Judge, StrictGln};
pub use reading::answer_by;
