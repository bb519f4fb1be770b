// The rule type: the seventeen rules, and what is fixed about each.
ghost use Rattle.std.specs.Prelude.{◌≡◌};
ghost use Rattle.rules.specs.Facts.{facts};

use answer::Severity::{self, Fatal, Warning};
use text::Reading::{self, AsItStands, Normalised};

// In the order of their numbers; 561 and 562 stand for R056-1 and R056-2.
#[derive(Clone, Copy, PartialEq, Eq, Debug)]
pub enum Rule {
    R40,
    R41,
    R42,
    R43,
    R44,
    R45,
    R46,
    R47,
    R49,
    R50,
    R52,
    R53,
    R54,
    R55,
    R57,
    R561,
    R562,
}

// What is fixed about a rule: its place in the order of rules, from 0, its published number, its severity, the scheme that it goes by, or
// none where it goes by the term alone, and how it reads a content.
#[derive(Clone, Copy, PartialEq, Eq, Debug)]
pub struct Fixed {
    pub index: usize,
    pub number: u32,
    pub severity: Severity,
    pub scheme: Option<[u8; 4]>,
    pub reading: Reading,
}

fn row(
    index: usize,
    number: u32,
    severity: Severity,
    scheme: Option<[u8; 4]>,
    reading: Reading,
) -> Fixed
    ensures { result ≡ record { index = index; number = number; severity = severity; scheme = scheme; reading = reading } }
{
    Fixed {
        index,
        number,
        severity,
        scheme,
        reading,
    }
}

impl Rule {
    // How many rules there are.
    pub const COUNT: usize = 17;

    // The schemes, as they are written.
    pub const SCHEME_0088: [u8; 4] = *b"0088";

    pub const SCHEME_0192: [u8; 4] = *b"0192";

    pub const SCHEME_0184: [u8; 4] = *b"0184";

    pub const SCHEME_0208: [u8; 4] = *b"0208";

    pub const SCHEME_0201: [u8; 4] = *b"0201";

    pub const SCHEME_0210: [u8; 4] = *b"0210";

    pub const SCHEME_9907: [u8; 4] = *b"9907";

    pub const SCHEME_0211: [u8; 4] = *b"0211";

    pub const SCHEME_0007: [u8; 4] = *b"0007";

    pub const SCHEME_0151: [u8; 4] = *b"0151";

    pub const SCHEME_0096: [u8; 4] = *b"0096";

    pub const SCHEME_0198: [u8; 4] = *b"0198";

    pub const SCHEME_0106: [u8; 4] = *b"0106";

    pub const SCHEME_0190: [u8; 4] = *b"0190";

    pub const SCHEME_0217: [u8; 4] = *b"0217";

    pub const SCHEME_9944: [u8; 4] = *b"9944";

    pub fn facts(self) -> Fixed
        ensures { result ≡ facts self }
    {
        match self {
            Rule::R40 => row(0, 40, Fatal, Some(Rule::SCHEME_0088), Normalised),
            Rule::R41 => row(1, 41, Fatal, Some(Rule::SCHEME_0192), Normalised),
            Rule::R42 => row(2, 42, Fatal, Some(Rule::SCHEME_0184), AsItStands),
            Rule::R43 => row(3, 43, Fatal, Some(Rule::SCHEME_0208), Normalised),
            Rule::R44 => row(4, 44, Warning, Some(Rule::SCHEME_0201), Normalised),
            Rule::R45 => row(5, 45, Warning, Some(Rule::SCHEME_0210), Normalised),
            Rule::R46 => row(6, 46, Warning, Some(Rule::SCHEME_9907), Normalised),
            Rule::R47 => row(7, 47, Warning, Some(Rule::SCHEME_0211), Normalised),
            Rule::R49 => row(8, 49, Fatal, Some(Rule::SCHEME_0007), Normalised),
            Rule::R50 => row(9, 50, Fatal, Some(Rule::SCHEME_0151), Normalised),
            Rule::R52 => row(10, 52, Fatal, Some(Rule::SCHEME_0096), AsItStands),
            Rule::R53 => row(11, 53, Fatal, Some(Rule::SCHEME_0198), AsItStands),
            Rule::R54 => row(12, 54, Warning, Some(Rule::SCHEME_0106), Normalised),
            Rule::R55 => row(13, 55, Warning, Some(Rule::SCHEME_0190), Normalised),
            Rule::R57 => row(14, 57, Warning, Some(Rule::SCHEME_0217), Normalised),
            Rule::R561 => row(15, 561, Warning, Some(Rule::SCHEME_9944), Normalised),
            Rule::R562 => row(16, 562, Warning, None, Normalised),
        }
    }

    pub fn index(self) -> usize
        ensures { result ≡ (facts self).index }
    {
        self.facts().index
    }

    pub fn number(self) -> u32
        ensures { result ≡ (facts self).number }
    {
        self.facts().number
    }

    pub fn severity(self) -> Severity
        ensures { result ≡ (facts self).severity }
    {
        self.facts().severity
    }

    pub fn scheme(self) -> Option<[u8; 4]>
        ensures { result ≡ (facts self).scheme }
    {
        self.facts().scheme
    }

    pub fn reading(self) -> Reading
        ensures { result ≡ (facts self).reading }
    {
        self.facts().reading
    }
}
