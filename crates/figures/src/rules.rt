// The rules with a check figure, by their names in the Rust.
ghost use Rattle.std.specs.Prelude.{◌≡◌};
ghost use Rattle.figures.specs.Rules.{gln, mod11, mod97, partita_iva, se_orgnr, abn};

use super::finding::{Finding, Problem, decided};
use super::kind::{
    ABN_MODULUS, ELEVEN, GLN_BEFORE, Kind, LAST, LUHN_BEFORE, MOD11, MOD97, TEN, passes,
};
use super::total::{abn_total, alternating, weighted};
use forms::{AUSTRALIAN, BELGIAN, NORWEGIAN, SWEDISH, all_digits, italian, n_digits};

// Rule 40 for any number of digits.
fn gln_of(s: &[u8]) -> Finding
    ensures { result ≡ gln s.now }
{
    all_digits(s)?;
    decided(u64::from(alternating(s, LAST, GLN_BEFORE, false)) % TEN == 0)
}

// A GLN has 13 digits. These go by themselves, so that both loops have a length that the compiler knows.
pub fn gln(s: &[u8]) -> Finding
    ensures { result ≡ gln s.now }
{
    if s.len() == 13 {
        return gln_of(&s[0..13]);
    }
    gln_of(s)
}

pub fn mod11(s: &[u8]) -> Finding
    ensures { result ≡ mod11 s.now }
{
    n_digits(s, NORWEGIAN)?;
    let weights = MOD11;
    let sum = weighted(s, &weights, false);
    if sum == 0 {
        return Err(Problem::Zero);
    }
    decided(sum % ELEVEN == 0)
}

pub fn mod97_0208(s: &[u8]) -> Finding
    ensures { result ≡ mod97 s.now }
{
    n_digits(s, BELGIAN)?;
    let powers = MOD97;
    decided(passes(Kind::Mod97, weighted(s, &powers, false)))
}

// The text with IT or it in front.
pub fn partita_iva(s: &[u8]) -> Finding
    ensures { result ≡ partita_iva s.now }
{
    italian(s)?;
    decided(u64::from(alternating(&s[2..13], LAST, LUHN_BEFORE, true)) % TEN == 0)
}

pub fn se_orgnr(s: &[u8]) -> Finding
    ensures { result ≡ se_orgnr s.now }
{
    n_digits(s, SWEDISH)?;
    decided(u64::from(alternating(s, LAST, LUHN_BEFORE, true)) % TEN == 0)
}

pub fn abn(s: &[u8]) -> Finding
    ensures { result ≡ abn s.now }
{
    n_digits(s, AUSTRALIAN)?;
    decided(abn_total(s) % (ABN_MODULUS as i64) == 0)
}
