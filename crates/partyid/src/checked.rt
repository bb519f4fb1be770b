// The checks: a field, accounts, the strict GLN; and the withdrawn codes.
ghost use Rattle.std.specs.Prelude.{◌≡◌};
ghost use Rattle.checks.specs.Check.{check_of, iban_answer, creditor_answer, eas_answer};
ghost use Rattle.guard.specs.Codes.{withdrawn_of};
ghost use Rattle.partyid.specs.Plain.{plain_answer, plain_code};

use super::plain::{PartyidAnswer, PartyidCode};

#[unsafe(no_mangle)]
pub extern "C" fn partyid_check(scheme: &[u8], term: u32, content: &[u8]) -> PartyidAnswer
    ensures { result ≡ plain_answer (check_of scheme.now term content.now) }
{
    PartyidAnswer::from(checks::check(scheme, term, content))
}

#[unsafe(no_mangle)]
pub extern "C" fn partyid_is_valid_iban_checksum(content: &[u8]) -> PartyidAnswer
    ensures { result ≡ plain_answer (iban_answer content.now) }
{
    PartyidAnswer::from(checks::is_valid_iban_checksum(content))
}

#[unsafe(no_mangle)]
pub extern "C" fn partyid_is_valid_creditor_identifier(content: &[u8]) -> PartyidAnswer
    ensures { result ≡ plain_answer (creditor_answer content.now) }
{
    PartyidAnswer::from(checks::is_valid_creditor_identifier(content))
}

#[unsafe(no_mangle)]
pub extern "C" fn partyid_eas_value(scheme: &[u8], content: &[u8]) -> PartyidAnswer
    ensures { result ≡ plain_answer (eas_answer scheme.now content.now) }
{
    PartyidAnswer::from(checks::eas_value(scheme, content))
}

#[unsafe(no_mangle)]
pub extern "C" fn partyid_withdrawn(code: &[u8]) -> PartyidCode
    ensures { result ≡ plain_code (withdrawn_of code.now) }
{
    PartyidCode::from(guard::withdrawn(code))
}
