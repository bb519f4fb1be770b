// Weighted totals of digits: by two weights that alternate, by a table of weights, and the ABN's.
ghost use Rattle.std.specs.Prelude.{◌≡◌, true, false, [], ◌∷◌, ◌+◌, ◌-◌, ◌*◌, ◌%◌, ◌≤◌, leb, length, take, drop};
ghost use Rattle.ascii.specs.Class.{is_digit, all};
ghost use Rattle.figures.specs.Total.{total};
ghost use Rattle.figures.specs.Figures.{counted, adds};
ghost use Rattle.figures.specs.Rules.{abn_total};

use super::kind::MOD89;
use ascii::wide;

// What the digit d adds by its weight; with `fold` the digits of the product are added.
pub(crate) fn counted(fold: bool, w: u32, d: u8) -> u64
    ensures { result ≡ counted fold (w * d) }
{
    let p = u64::from(w) * u64::from(d);
    if fold {
        return p / 10 + p % 10;
    }
    p
}

// The same for two weights that alternate: by 64 bits, 20 digits would take a quarter longer.
fn part(w: u32, b: u8, fold: bool) -> u32
    requires small { w ≤ 10000000 }
    requires digit { is_digit b ≡ true }
    ensures exact { result ≡ counted fold (w * (b - 48)) }
    ensures bound { result ≤ w * 9 }
{
    let p = w * wide(b - 48);
    if fold {
        return p / 10 + p % 10;
    }
    p
}

// That a text is of digits stays a clause: a type of digits would need ways to take its parts, the first eight or all but the first.
//
// What the first digit adds where the number of digits is odd.
fn lead(s: &[u8], last: u32, before: u32, fold: bool) -> u32
    requires digits { all is_digit s.now ≡ true }
    requires small { last ≤ 3 }
    ensures exact { result + total (adds fold (last ∷ before ∷ [])) (drop (length s.now % 2) s.now) ≡ total (adds fold (last ∷ before ∷ [])) s.now }
    ensures bound { result ≤ 27 }
{
    if s.len() % 2 == 1 {
        return part(last, s[0], fold);
    }
    0
}

// The total by two weights that alternate leftwards from the last digit. It goes from the left, two digits at a time. The weights and whether digits are
// added are GS1's or Luhn's: a struct of the three would be made at each of three calls, and taken apart in each digit's part.
pub(crate) fn alternating(s: &[u8], last: u32, before: u32, fold: bool) -> u32
    requires digits { all is_digit s.now ≡ true }
    requires few { length s.now ≤ 1024 }
    requires last_small { last ≤ 3 }
    requires before_small { before ≤ 3 }
    ensures { result ≡ total (adds fold (last ∷ before ∷ [])) s.now }
{
    let (_, pairs) = s.as_rchunks::<2>();
    let mut sum = lead(s, last, before, fold);
    for [a, b] in pairs {
        sum += part(before, *a, fold) + part(last, *b, fold);
    }
    sum
}

// The total by the weights of places from the right, for no more digits than there are places.
pub(crate) fn weighted(s: &[u8], weights: &[u32], fold: bool) -> u64
    requires digits { all is_digit s.now ≡ true }
    requires few { length s.now ≤ 255 }
    requires enough { length s.now ≤ length weights.now }
    ensures exact { result ≡ total (adds fold weights.now) s.now }
    ensures bound { result ≤ 38654705664 * length s.now }
{
    let mut sum = 0;
    for (b, w) in s.iter().rev().zip(weights) {
        sum += counted(fold, *w, *b - 48);
    }
    sum
}

// The exact total of an ABN: from -10 to 980.
pub(crate) fn abn_total(s: &[u8]) -> i64
    requires digits { all is_digit s.now ≡ true }
    requires eleven { length s.now ≡ 11 }
    ensures { result ≡ abn_total s.now }
{
    let weights = MOD89;
    let rest = weighted(&s[1..11], &weights, false);
    let digit = s[0] - 48;
    // by `as`, as no From takes a u64; i64::from was tried for the other two, and the proof of the total did not close
    let first = (digit as i64) - 1;
    (weights[10] as i64) * first + (rest as i64)
}
