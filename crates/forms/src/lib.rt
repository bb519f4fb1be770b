// What a text looks like: a form is data, and one function finds the first fault.
#![tactic(auto)]

mod form;
mod table;

pub use form::{Fault, fault_of};
pub use table::{
    AUSTRALIAN, BELGIAN, NORWEGIAN, SWEDISH, all_digits, codice_ipa, creditor_form, danish, digits,
    dk_and_eight, dutch_vat, iban_form, italian, n_digits,
};
