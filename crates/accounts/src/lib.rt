// Identifiers of bank accounts: the IBAN and the creditor identifier.
#![tactic(auto)]

mod account;
mod number;

pub use account::{creditor_text, iban_text};
