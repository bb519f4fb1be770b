// The strict GLN.
ghost use Rattle.std.specs.Prelude.{◌≡◌};
ghost use Rattle.guard.specs.Gln.{strict_gln};

use figures::{Finding, Problem, gln};
use forms::Fault;

// What is found in a text as a GLN of exactly 13 digits: at that length what rule 40 finds.
#[inline(always)]
pub fn gln_problem(text: &[u8]) -> Finding
    ensures { result ≡ strict_gln text.now }
{
    if text.len() == 13 {
        return gln(text);
    }
    Err(Problem::Unfit(Fault::Length))
}
