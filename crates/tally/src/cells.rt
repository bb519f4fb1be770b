// Which count an answer goes to.
ghost use Rattle.std.specs.Prelude.{◌≡◌, ◌<◌};
ghost use Rattle.rules.specs.Choice.{rule_numbered};
ghost use Rattle.tally.specs.Cell.{tally_size, other_cell, cell_of, Proper};
ghost use Rattle.tally.specs.Inner.{first_by};

use answer::{Answer, Verdict};

#[tactic(auto, unfolding(ascii::specs::Pick::pick))]
fn other_cell(verdict: Verdict) -> usize
    ensures { result ≡ other_cell verdict }
{
    match verdict {
        Verdict::NoRule => 51,
        _ => 52,
    }
}

// The first of the three cells of the rule that has a number; 562 is what is left. By its number, since that is what an answer carries.
#[tactic(auto, unfolding(ascii::specs::Pick::pick, rules::specs::Choice::rule_numbered))]
fn first_cell(number: u32) -> usize
    requires { first_by (rule_numbered number) < 51 }
    ensures { result ≡ first_by (rule_numbered number) }
{
    match number {
        40 => 0,
        41 => 3,
        42 => 6,
        43 => 9,
        44 => 12,
        45 => 15,
        46 => 18,
        47 => 21,
        49 => 24,
        50 => 27,
        52 => 30,
        53 => 33,
        54 => 36,
        55 => 39,
        57 => 42,
        561 => 45,
        _ => 48,
    }
}

#[tactic(auto, using(crate::proofs::Places::verdict_few, crate::proofs::Places::other_small, crate::proofs::Places::other_cell_lem, crate::proofs::Places::by_rule, crate::proofs::Places::rule_cell))]
pub(crate) fn cell(a: Answer) -> usize
    requires { Proper a }
    ensures told { result ≡ cell_of a }
    ensures below { result < tally_size }
{
    if a.rule == 0 {
        return other_cell(a.verdict);
    }
    first_cell(a.rule) + (u32::from(a.verdict) as usize) - 1
}
