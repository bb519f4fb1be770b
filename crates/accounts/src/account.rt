// What is found in a stripped text as an IBAN, and as a creditor identifier.
ghost use Rattle.std.specs.Prelude.{◌≡◌};
ghost use Rattle.accounts.specs.Rules.{iban_finding, creditor_finding};

use super::number::remainder;
use figures::{Finding, decided, form_only};
use forms::{creditor_form, iban_form};

#[tactic(auto, unfolding(crate::specs::Rules::iban_finding))]
pub fn iban_text(text: &[u8]) -> Finding
    ensures { result ≡ iban_finding text.now }
{
    iban_form(text)?;
    decided(remainder(text, 4) == 1)
}

// Its form is the whole test.
#[tactic(auto, unfolding(crate::specs::Rules::creditor_finding))]
pub fn creditor_text(text: &[u8]) -> Finding
    ensures { result ≡ creditor_finding text.now }
{
    form_only(creditor_form(text))
}
