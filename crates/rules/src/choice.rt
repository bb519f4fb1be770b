// Which rule reads a field, by its scheme and its term.
ghost use Rattle.std.specs.Prelude.{◌≡◌};
ghost use Rattle.ascii.specs.Written.{bytes};
ghost use Rattle.rules.specs.Choice.{at_term, rule_for};

use super::rule::Rule;
use answer::Reason;
use ascii::among;

const VAT_TERMS: [u32; 3] = [31, 48, 63];

const SCHEME_TERMS: [u32; 8] = [29, 30, 34, 46, 47, 49, 60, 61];

const ADDRESS_TERMS: [u32; 2] = [34, 49];

// The rule of 9907, which applies at the electronic addresses only.
#[tactic(auto, unfolding(crate::specs::Choice::at_term, crate::specs::Choice::by_scheme, ascii::specs::Class::among, ascii::specs::Pick::pick))]
fn at_address(term: u32) -> Option<Rule>
    ensures { result ≡ at_term (bytes "9907") term }
{
    among(term, &ADDRESS_TERMS).then_some(Rule::R46)
}

// The rule at a term that uses the scheme.
#[tactic(auto, using(crate::proofs::Schemes::at_four, crate::proofs::Schemes::at_none), unfolding(crate::specs::Choice::at_term, crate::specs::Choice::by_scheme, ascii::specs::Pick::pick))]
fn at_term(scheme: &[u8], term: u32) -> Option<Rule>
    ensures { result ≡ at_term scheme.now term }
{
    match scheme {
        b"0088" => Some(Rule::R40),
        b"0192" => Some(Rule::R41),
        b"0184" => Some(Rule::R42),
        b"0208" => Some(Rule::R43),
        b"0201" => Some(Rule::R44),
        b"0210" => Some(Rule::R45),
        b"9907" => at_address(term),
        b"0211" => Some(Rule::R47),
        b"0007" => Some(Rule::R49),
        b"0151" => Some(Rule::R50),
        b"0096" => Some(Rule::R52),
        b"0198" => Some(Rule::R53),
        b"0106" => Some(Rule::R54),
        b"0190" => Some(Rule::R55),
        b"0217" => Some(Rule::R57),
        b"9944" => Some(Rule::R561),
        _ => None,
    }
}

// The rule that reads a field, or none, or there is no such term (docs/RULES.md, Terms). Inlined, since its answer would be handed back in
// memory.
#[tactic(auto, unfolding(crate::specs::Choice::rule_for, ascii::specs::Class::among, ascii::specs::Pick::pick))]
#[inline(always)]
pub fn rule_for(scheme: &[u8], term: u32) -> Result<Option<Rule>, Reason>
    ensures { result ≡ rule_for scheme.now term }
{
    if among(term, &VAT_TERMS) {
        Ok(Some(Rule::R562))
    } else if among(term, &SCHEME_TERMS) {
        Ok(at_term(scheme, term))
    } else {
        Err(Reason::Term)
    }
}
