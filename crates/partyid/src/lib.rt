// The library for programs in C and Rust: every public function, on any bytes, with numbers for its answer.
#![tactic(auto)]

mod answers;
mod checked;
mod content;
mod counts;
mod plain;
mod work;

pub use answers::{partyid_answer_line, partyid_answer_lines};
pub use checked::{
    partyid_check, partyid_eas_value, partyid_is_valid_creditor_identifier,
    partyid_is_valid_iban_checksum, partyid_withdrawn,
};
pub use content::{partyid_decode, partyid_is_white, partyid_normalize_space, partyid_strip};
pub use counts::{partyid_tally_line, partyid_tally_lines};
pub use plain::{PartyidAnswer, PartyidBatch, PartyidCode, PartyidDone, PartyidPoint, PartyidText};
pub use work::{partyid_complete, partyid_list};
