// The five schemes whose numbers are completed and listed.
ghost use Rattle.std.specs.Prelude.{◌≡◌};
ghost use Rattle.corrections.specs.Five.{row, rule_of, five_of};

use figures::Kind;
use forms::{AUSTRALIAN, BELGIAN, NORWEGIAN, SWEDISH};
use rules::Rule;

// 0088, 0192, 0208, 0007 and 0151. Not figures' Kind: a scheme has a rule and forms besides its check figure.
#[derive(Clone, Copy, PartialEq, Eq, Debug)]
pub enum Five {
    Gln,
    Norway,
    Belgium,
    Sweden,
    Australia,
}

// What is fixed about one of the five.
#[derive(Clone, Copy, PartialEq, Eq, Debug)]
pub struct Row {
    pub rule: Rule,
    pub figure: Kind,
    // how many digits a number has, and how many a body
    pub least: u8,
    pub most: u8,
    pub shortest: u8,
    pub longest: u8,
    // whether the figure is a pair, and whether it goes in front of the body
    pub pair: bool,
    pub front: bool,
    // whether some bodies have no figure
    pub gaps: bool,
    // the least figure that is written
    pub lowest: u8,
}

impl Five {
    // Each row by the names of its fields: a maker of ten parameters would be shorter, and say less.
    pub fn row(self) -> Row
        ensures { result ≡ row self }
    {
        match self {
            Five::Gln => Row {
                rule: Rule::R40,
                figure: Kind::Mod10,
                least: 1,
                most: 20,
                shortest: 1,
                longest: 19,
                pair: false,
                front: false,
                gaps: false,
                lowest: 0,
            },
            Five::Norway => Row {
                rule: Rule::R41,
                figure: Kind::Mod11,
                least: NORWEGIAN as u8,
                most: NORWEGIAN as u8,
                shortest: 8,
                longest: 8,
                pair: false,
                front: false,
                gaps: true,
                lowest: 0,
            },
            Five::Belgium => Row {
                rule: Rule::R43,
                figure: Kind::Mod97,
                least: BELGIAN as u8,
                most: BELGIAN as u8,
                shortest: 8,
                longest: 8,
                pair: true,
                front: false,
                gaps: false,
                lowest: 0,
            },
            Five::Sweden => Row {
                rule: Rule::R49,
                figure: Kind::Luhn,
                least: SWEDISH as u8,
                most: SWEDISH as u8,
                shortest: 9,
                longest: 9,
                pair: false,
                front: false,
                gaps: false,
                lowest: 0,
            },
            Five::Australia => Row {
                rule: Rule::R50,
                figure: Kind::Mod89,
                least: AUSTRALIAN as u8,
                most: AUSTRALIAN as u8,
                shortest: 9,
                longest: 9,
                pair: true,
                front: true,
                gaps: false,
                lowest: 11,
            },
        }
    }

    pub fn rule(self) -> Rule
        ensures { result ≡ rule_of self }
    {
        self.row().rule
    }

    pub fn figure(self) -> Kind
        ensures { result ≡ (row self).figure }
    {
        self.row().figure
    }
}

// The one whose rule goes by a scheme, if any does. A match: a find over the rules' schemes made completing a third slower.
#[tactic(auto, using(crate::proofs::Schemes::at_four, crate::proofs::Schemes::at_none), unfolding(crate::specs::Five::five_of))]
pub fn five_of(scheme: &[u8]) -> Option<Five>
    ensures { result ≡ five_of scheme.now }
{
    match scheme {
        b"0088" => Some(Five::Gln),
        b"0192" => Some(Five::Norway),
        b"0208" => Some(Five::Belgium),
        b"0007" => Some(Five::Sweden),
        b"0151" => Some(Five::Australia),
        _ => None,
    }
}
