// The checks.
ghost use Rattle.std.specs.Prelude.{◌≡◌};
ghost use Rattle.checks.specs.Check.{answer_by, check_of, iban_answer, creditor_answer, eas_answer};

use super::judge::{Creditor, Iban, StrictGln};
use super::reading::answer_by;
use answer::{Answer, no_rule, refused};
use rules::{Rule, rule_for};
use text::Reading;

// The answer of a rule to a content.
#[tactic(auto, unfolding(crate::specs::Check::answer_by))]
pub fn check_by(rule: Rule, content: &[u8]) -> Answer
    ensures { result ≡ answer_by rule content.now }
{
    answer_by(
        rule.reading(),
        rule,
        rule.number(),
        Some(rule.severity()),
        content,
    )
}

// The field check: any scheme, any term, any bytes.
#[tactic(auto, unfolding(crate::specs::Check::check_of))]
pub fn check(scheme: &[u8], term: u32, content: &[u8]) -> Answer
    ensures { result ≡ check_of scheme.now term content.now }
{
    match rule_for(scheme, term) {
        Ok(Some(rule)) => check_by(rule, content),
        Ok(None) => no_rule(),
        Err(why) => refused(0, None, why),
    }
}

#[tactic(auto, unfolding(crate::specs::Check::iban_answer))]
pub fn is_valid_iban_checksum(content: &[u8]) -> Answer
    ensures { result ≡ iban_answer content.now }
{
    answer_by(Reading::Stripped, Iban, 0, None, content)
}

#[tactic(auto, unfolding(crate::specs::Check::creditor_answer))]
pub fn is_valid_creditor_identifier(content: &[u8]) -> Answer
    ensures { result ≡ creditor_answer content.now }
{
    answer_by(Reading::Stripped, Creditor, 0, None, content)
}

// The answer to a value under a scheme. The content of any other scheme is not looked at; that of this one is read as it stands.
#[tactic(auto, using(crate::proofs::Schemes::at_four, crate::proofs::Schemes::at_none), unfolding(crate::specs::Check::eas_answer, ascii::specs::Pick::pick))]
pub fn eas_value(scheme: &[u8], content: &[u8]) -> Answer
    ensures { result ≡ eas_answer scheme.now content.now }
{
    match scheme {
        b"0088" => answer_by(Reading::AsItStands, StrictGln, 0, None, content),
        _ => no_rule(),
    }
}
