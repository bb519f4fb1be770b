// What a rule finds in a text.
ghost use Rattle.std.specs.Prelude.{◌≡◌};
ghost use Rattle.rules.specs.declared.rule.Rule.TheVariants.{R47, R562};
ghost use Rattle.rules.specs.Finding.{finding, is_italian, is_dutch};

use super::rule::Rule;
use codice::codice_fiscale;
use figures::{Finding, Passed, form_only};

// `It` is not Italian.
#[tactic(auto, unfolding(crate::specs::Finding::is_italian))]
fn is_italian(text: &[u8]) -> bool
    ensures { result ≡ is_italian text.now }
{
    text.starts_with(b"IT") | text.starts_with(b"it")
}

#[tactic(auto, unfolding(crate::specs::Finding::is_dutch))]
fn is_dutch(text: &[u8]) -> bool
    ensures { result ≡ is_dutch text.now }
{
    text.starts_with(b"NL")
}

// 47: what is not Italian is let through.
#[tactic(auto, unfolding(ascii::specs::Pick::pick))]
fn italian_vat(text: &[u8]) -> Finding
    ensures { result ≡ finding R47 text.now }
{
    if is_italian(text) {
        figures::partita_iva(text)
    } else {
        Ok(Passed::Through)
    }
}

// 562: what is not Dutch is let through.
#[tactic(auto, unfolding(ascii::specs::Pick::pick))]
fn dutch_if_said(text: &[u8]) -> Finding
    ensures { result ≡ finding R562 text.now }
{
    if is_dutch(text) {
        form_only(forms::dutch_vat(text))
    } else {
        Ok(Passed::Through)
    }
}

pub fn finding(rule: Rule, text: &[u8]) -> Finding
    ensures { result ≡ finding rule text.now }
{
    match rule {
        Rule::R40 => figures::gln(text),
        Rule::R41 => figures::mod11(text),
        Rule::R42 => form_only(forms::danish(text)),
        Rule::R43 => figures::mod97_0208(text),
        Rule::R44 => form_only(forms::codice_ipa(text)),
        Rule::R45 => form_only(codice_fiscale(text)),
        Rule::R46 => form_only(codice_fiscale(text)),
        Rule::R47 => italian_vat(text),
        Rule::R49 => figures::se_orgnr(text),
        Rule::R50 => figures::abn(text),
        Rule::R52 => form_only(forms::n_digits(text, 10)),
        Rule::R53 => form_only(forms::dk_and_eight(text)),
        Rule::R54 => form_only(forms::n_digits(text, 8)),
        Rule::R55 => form_only(forms::n_digits(text, 20)),
        Rule::R57 => form_only(forms::n_digits(text, 12)),
        Rule::R561 => form_only(forms::dutch_vat(text)),
        Rule::R562 => dutch_if_said(text),
    }
}
