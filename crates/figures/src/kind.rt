// The check figures by which bodies are completed and numbers corrected: how a digit counts, and what a total says.
ghost use Rattle.std.specs.Prelude.{◌≡◌, [], ◌∷◌, ◌+◌, ◌*◌, ◌≤◌, length, get_or};
ghost use mir.Val.{bool_byte};
ghost use Rattle.forms.specs.Table.{digits};
ghost use Rattle.figures.specs.Total.{total};
ghost use Rattle.figures.specs.Figures.{weight_at, counted, belgian_pair};
ghost use Rattle.figures.specs.Inner.{figure_by, weight_by, placed, adds_from, summed_by, total_passes, lacking, figure_for};

use super::total::counted;
use answer::Reason;
use ascii::{is_digit, wide};
use forms::Fault;
use std::array;

// 0088, 0192, 0208, 0007, 0151.
#[derive(Clone, Copy, PartialEq, Eq, Debug)]
pub enum Kind {
    Mod10,
    Mod11,
    Mod97,
    Luhn,
    Mod89,
}

// Weights from the right. Those of 0088 and of Luhn alternate.
pub(crate) const LAST: u32 = 1;

pub(crate) const GLN_BEFORE: u32 = 3;

pub(crate) const LUHN_BEFORE: u32 = 2;

pub(crate) const MOD11: [u32; 9] = [1, 2, 3, 4, 5, 6, 7, 2, 3];

// The powers of ten: the total is the number itself.
pub(crate) const MOD97: [u32; 10] = [
    1, 10, 100, 1000, 10000, 100000, 1000000, 10000000, 100000000, 1000000000,
];

pub(crate) const MOD89: [u32; 11] = [19, 17, 15, 13, 11, 9, 7, 5, 3, 1, 10];

// The moduli.
pub(crate) const TEN: u64 = 10;

pub(crate) const ELEVEN: u64 = 11;

pub(crate) const ABN_MODULUS: u64 = 89;

// Two weights in turn, over 20 places.
fn in_turn(last: u32, before: u32) -> [u32; 20]
    ensures { result ≡ placed 20 (weight_at (last ∷ before ∷ [])) }
{
    let pair = [last, before];
    array::from_fn(|k| pair[k % 2])
}

// The weights of a table, and zeros up to 20 places.
fn tabled(weights: &[u32]) -> [u32; 20]
    requires { length weights.now ≤ 20 }
    ensures { result ≡ placed 20 (λ k. get_or weights.now k 0) }
{
    let mut places = [0; 20];
    places[..weights.len()].copy_from_slice(weights);
    places
}

// The weights of 20 places, as many as a number has that is completed or listed.
pub fn weights_of(kind: Kind) -> [u32; 20]
    ensures { result ≡ placed 20 (weight_by kind) }
{
    match kind {
        Kind::Mod10 => in_turn(LAST, GLN_BEFORE),
        Kind::Mod11 => tabled(&MOD11),
        Kind::Mod97 => tabled(&MOD97),
        Kind::Luhn => in_turn(LAST, LUHN_BEFORE),
        Kind::Mod89 => tabled(&MOD89),
    }
}

// What the digit d adds by its weight.
pub fn share(kind: Kind, w: u32, d: u8) -> u64
    ensures { result ≡ counted (figure_by kind).fold (w * d) }
{
    counted(kind == Kind::Luhn, w, d)
}

// The total of least to most digits by the weights of their places; where a check digit is still to come, the last place is for it. More digits
// than places are too long. One pass tests each digit and adds it up: by forms' test and then `weighted` a completion took 18 to 40 percent more.
#[tactic(auto, using(crate::proofs::Adding::sum_short, crate::proofs::Adding::sum_long, crate::proofs::Adding::sum_over))]
pub fn sum_of(
    kind: Kind,
    weights: &[u32],
    s: &[u8],
    least: u8,
    most: u8,
    pending: bool,
) -> Result<u64, Fault>
    ensures { result ≡ summed_by (figure_by kind).fold weights.now (digits least most) (bool_byte pending) s.now }
{
    let n = s.len();
    let after = usize::from(pending);
    if weights.len() < n + after || n < usize::from(least) || usize::from(most) < n {
        return Err(Fault::Length);
    }
    let places = &weights[after..];
    let mut sum = 0;
    for (i, b) in s.iter().enumerate() {
        if !is_digit(wide(*b)) {
            return Err(Fault::At(i));
        }
        sum += share(kind, places[n - 1 - i], *b - 48);
    }
    Ok(sum)
}

// The pair of 0208: 97 less what the first eight digits leave by 97.
pub(crate) fn belgian_pair(n: u64) -> u64
    ensures { result ≡ belgian_pair n }
{
    97 - n % 97
}

// Whether a number of the right form is accepted, by its total.
pub fn passes(kind: Kind, total: u64) -> bool
    ensures { result ≡ total_passes kind total }
{
    match kind {
        Kind::Mod10 => total % TEN == 0,
        Kind::Mod11 => (total != 0) & (total % ELEVEN == 0),
        Kind::Mod97 => total % 100 == belgian_pair(total / 100),
        Kind::Luhn => total % TEN == 0,
        Kind::Mod89 => total % ABN_MODULUS == 10,
    }
}

// The check figure that a body's total lacks; 10 where a body of 0192 has none. A number and no Option, as its promise says; `figure_for` says
// why there is none.
pub fn lacking(kind: Kind, total: u64) -> u64
    ensures { result ≡ lacking kind total }
{
    match kind {
        Kind::Mod10 => (TEN - total % TEN) % TEN,
        Kind::Mod11 => (ELEVEN - total % ELEVEN) % ELEVEN,
        Kind::Mod97 => belgian_pair(total),
        Kind::Luhn => (TEN - total % TEN) % TEN,
        Kind::Mod89 => 99 - total % ABN_MODULUS,
    }
}

// The same, or why a body of 0192 has none.
#[tactic(auto, unfolding(ascii::specs::Pick::pick))]
pub fn figure_for(kind: Kind, total: u64) -> Result<u64, Reason>
    ensures { result ≡ figure_for kind total }
{
    let check = lacking(kind, total);
    match kind {
        Kind::Mod11 if total == 0 => Err(Reason::Zero),
        Kind::Mod11 if check == 10 => Err(Reason::NoFigure),
        _ => Ok(check),
    }
}
