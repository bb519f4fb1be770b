// A number, and which of its corrections the rule accepts, found from its one total.
ghost use Rattle.std.specs.Prelude.{◌≡◌, ◌+◌, ◌-◌, ◌<◌, length, IfSome};
ghost use Rattle.figures.specs.Changes.{exchanged};
ghost use Rattle.figures.specs.Total.{digit_at};
ghost use Rattle.rules.specs.Finding.{accepts};
ghost use Rattle.corrections.specs.Five.{rule_of};
ghost use Rattle.corrections.specs.Corrections.{fixes_at};
ghost use Rattle.corrections.specs.Inner.{places_of, sharing, mended, Summed};

use super::five::Five;
use figures::{passes, share};

// Digits of the form of their scheme, the weights of their places and their total.
#[derive(Clone, Copy)]
pub(crate) struct Number<'a> {
    pub kind: Five,
    pub weights: &'a [u32; 20],
    pub digits: &'a [u8],
    pub sum: u64,
    pub ghost placed: { weights.now ≡ places_of kind },
    pub ghost summed: { Summed kind digits.now sum },
}

// That a place lies within the number stands in each method: a type of places would have to borrow the number, and say it at length.
impl Number<'_> {
    fn digit(&self, i: usize) -> u8
        requires { i < length self.now.digits.now }
        ensures { result ≡ digit_at self.now.digits.now i }
    {
        self.digits[i] - b'0'
    }

    // What the digit d adds at place i.
    fn share(&self, i: usize, d: u8) -> u64
        requires { i < length self.now.digits.now }
        ensures { result ≡ sharing self.now.kind (length self.now.digits.now - 1 - i) d }
    {
        let k = self.digits.len() - 1 - i;
        share(self.kind.figure(), self.weights[k], d)
    }

    // The digit that makes the rule accept the number when it stands at i; there is one at most.
    pub(crate) fn digit_at(&self, i: usize) -> Option<u8>
        requires { i < length self.now.digits.now }
        ensures found { fixes_at (rule_of self.now.kind) self.now.digits.now i ≡ mended self.now.digits.now i result }
        ensures digit { IfSome result (λ d. d < 10) }
    {
        let figure = self.kind.figure();
        let base = self.sum - self.share(i, self.digit(i));
        for d in 0..10u8 {
            if passes(figure, base + self.share(i, d)) {
                return Some(d);
            }
        }
        None
    }

    // The rule on the number with the digits at i and i + 1 exchanged.
    pub(crate) fn accepts_exchanged(&self, i: usize) -> bool
        requires { i + 1 < length self.now.digits.now }
        ensures { result ≡ accepts (rule_of self.now.kind) (exchanged self.now.digits.now i) }
    {
        let a = self.digit(i);
        let b = self.digit(i + 1);
        let was = self.share(i, a) + self.share(i + 1, b);
        let new = self.share(i, b) + self.share(i + 1, a);
        passes(self.kind.figure(), self.sum + new - was)
    }
}
