// Integer text over code points.
ghost use Rattle.std.specs.Prelude.{◌≡◌, Bool, ℕ};
ghost use Rattle.codice.specs.Integer.{past, is_sign, unsigned, trim_end, one_or_more_digits, integer_text};
ghost use Rattle.codice.specs.Inner.{Tests};

use ascii::is_digit;
use text::is_white;

// What is left past the points at the start that pass a test.
#[tactic(auto, unfolding(crate::specs::Integer::past, ascii::specs::Pick::pick))]
fn past<F: Fn(u32) -> bool>(p: &[u32], test: F) -> &[u32]
    requires { F.IsAlwaysCallable test }
    ensures { (q : ℕ → Bool) → Tests (F.post test) q → result.now ≡ past q p.now }
{
    let mut rest = p;
    while let [c, after @ ..] = rest {
        if !test(*c) {
            return rest;
        }
        rest = after;
    }
    rest
}

#[tactic(auto, unfolding(crate::specs::Integer::is_sign))]
fn is_sign(c: u32) -> bool
    ensures { result ≡ is_sign c }
{
    (c == 0x2b) | (c == 0x2d)
}

// What is left past one sign.
#[tactic(auto, unfolding(crate::specs::Integer::unsigned, ascii::specs::Pick::pick))]
fn unsigned(p: &[u32]) -> &[u32]
    ensures { result.now ≡ unsigned p.now }
{
    match p {
        [first, rest @ ..] if is_sign(*first) => rest,
        _ => p,
    }
}

// One or more digits, and only white after them.
fn is_number(p: &[u32]) -> bool
    ensures { result ≡ one_or_more_digits (trim_end p.now) }
{
    let behind = past(p, |c| is_digit(c));
    behind.len() < p.len() && past(behind, |c| is_white(c)).len() == 0
}

// After trimming, at most one sign and then one or more digits.
pub fn castable_integer(p: &[u32]) -> bool
    ensures { result ≡ integer_text p.now }
{
    let trimmed = past(p, |c| is_white(c));
    is_number(unsigned(trimmed))
}
