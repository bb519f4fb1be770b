// The forms by their names, each as its row of the table.
ghost use Rattle.std.specs.Prelude.{◌≡◌};
ghost use Rattle.forms.specs.Form.{fault_of};
ghost use Rattle.forms.specs.Table as named;

use super::form::{Fault, fault_of};

// How many digits a number of 0192, 0208, 0007 and 0151 has.
pub const NORWEGIAN: usize = 9;

pub const BELGIAN: usize = 10;

pub const SWEDISH: usize = 10;

pub const AUSTRALIAN: usize = 11;

// Each row is one call. As constants of a struct with a method, rows would take six lines each, and twice the time where the method isn't inlined.
//
// Only digits, least to most of them.
pub fn digits(text: &[u8], least: usize, most: usize) -> Result<(), Fault>
    ensures { result ≡ fault_of (named.digits least most) text.now }
{
    fault_of(b"", b'#', least, most, text)
}

pub fn n_digits(text: &[u8], n: usize) -> Result<(), Fault>
    ensures { result ≡ fault_of (named.digits n n) text.now }
{
    digits(text, n, n)
}

pub fn all_digits(text: &[u8]) -> Result<(), Fault>
    ensures { result ≡ fault_of named.some_digits text.now }
{
    digits(text, 1, 1024)
}

pub fn codice_ipa(text: &[u8]) -> Result<(), Fault>
    ensures { result ≡ fault_of named.ipa text.now }
{
    fault_of(b"", b'*', 6, 6, text)
}

pub fn dk_and_eight(text: &[u8]) -> Result<(), Fault>
    ensures { result ≡ fault_of named.dk_and_eight text.now }
{
    fault_of(b"DK", b'#', 10, 10, text)
}

#[tactic(auto, using(crate::proofs::Laws::picked_first, crate::proofs::Laws::picked_second))]
pub fn danish(text: &[u8]) -> Result<(), Fault>
    ensures { result ≡ fault_of (named.danish_of text.now) text.now }
{
    if text.len() == 8 {
        return digits(text, 8, 8);
    }
    dk_and_eight(text)
}

#[tactic(auto, using(crate::proofs::Laws::picked_first, crate::proofs::Laws::picked_second, crate::proofs::Laws::fault_empty))]
pub fn italian(text: &[u8]) -> Result<(), Fault>
    ensures { result ≡ fault_of (named.italian_of text.now) text.now }
{
    if text.len() == 0 {
        return Err(Fault::Length);
    }
    if text[0] == b'i' {
        return fault_of(b"it", b'#', 13, 13, text);
    }
    fault_of(b"IT", b'#', 13, 13, text)
}

pub fn dutch_vat(text: &[u8]) -> Result<(), Fault>
    ensures { result ≡ fault_of named.dutch text.now }
{
    fault_of(b"NL#########B", b'#', 14, 14, text)
}

pub fn iban_form(text: &[u8]) -> Result<(), Fault>
    ensures { result ≡ fault_of named.iban text.now }
{
    fault_of(b"&&##", b'*', 5, 34, text)
}

pub fn creditor_form(text: &[u8]) -> Result<(), Fault>
    ensures { result ≡ fault_of named.creditor text.now }
{
    fault_of(b"&&##", b'*', 8, 35, text)
}
