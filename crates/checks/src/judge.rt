// Who judges a text that was read, and the answer to what is found.
ghost use Rattle.std.specs.Prelude.{◌≡◌, List, ℕ};
ghost use Rattle.figures.specs.Findings.{Finding};
ghost use Rattle.rules.specs.Finding.{finding};
ghost use Rattle.accounts.specs.Rules.{iban_finding, creditor_finding};
ghost use Rattle.guard.specs.Gln.{strict_gln};
ghost use Rattle.checks.specs.Reading.{answered};

use answer::{Answer, Reason, Severity, accepted, refused, unread};
use figures::{Finding, Passed};
use rules::Rule;

// A rule of a field, or one of those without a number.
pub trait Judge {
    // what is found in a text
    ghost finds: { Self → List ℕ → Finding };

    fn finding(self, text: &[u8]) -> Finding
        ensures { result ≡ finds self text.now };
}

impl Judge for Rule {
    ghost finds = { finding };

    fn finding(self, text: &[u8]) -> Finding {
        rules::finding(self, text)
    }
}

#[derive(Clone, Copy)]
pub struct Iban;

impl Judge for Iban {
    ghost finds = { λ _ text. iban_finding text };

    fn finding(self, text: &[u8]) -> Finding {
        accounts::iban_text(text)
    }
}

#[derive(Clone, Copy)]
pub struct Creditor;

impl Judge for Creditor {
    ghost finds = { λ _ text. creditor_finding text };

    fn finding(self, text: &[u8]) -> Finding {
        accounts::creditor_text(text)
    }
}

#[derive(Clone, Copy)]
pub struct StrictGln;

impl Judge for StrictGln {
    ghost finds = { λ _ text. strict_gln text };

    // Inlined, as what it calls is: a finding comes back in memory, and each call on the way would copy it.
    #[inline(always)]
    fn finding(self, text: &[u8]) -> Finding {
        guard::gln_problem(text)
    }
}

pub(crate) fn answer_to(number: u32, severity: Option<Severity>, found: Finding) -> Answer
    ensures { result ≡ answered number severity found }
{
    match found {
        Ok(Passed::Good) => accepted(number, severity),
        Ok(Passed::Through) => unread(number, severity),
        Err(problem) => refused(number, severity, Reason::from(problem)),
    }
}
