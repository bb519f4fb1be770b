// One step of decoding UTF-8.
ghost use Rattle.std.specs.Prelude.{◌≡◌, ◌∷◌, ◌<◌, drop};
ghost use Rattle.ascii.specs.Class.{within};
ghost use Rattle.text.specs.Utf8.{step_of, two, three, four};

// A code point, and how many bytes it takes.
#[derive(Clone, Copy, PartialEq, Eq, Debug)]
pub struct Point {
    pub code: u32,
    pub len: usize,
}

#[tactic(auto, unfolding(ascii::specs::Class::within))]
fn within(low: u8, high: u8, b: u8) -> bool
    ensures { result ≡ within low high b }
{
    (low <= b) & (b <= high)
}

// A byte that follows the first of a sequence.
fn is_tail(b: u8) -> bool
    ensures { result ≡ within 0x80 0xbf b }
{
    within(0x80, 0xbf, b)
}

// The sequences of two, three and four bytes, by the first and by what stands behind it; low to high is the range of the second. They go into `beyond`, so
// that no result passes through memory on the way. Three functions, as the RFC has three rows: one for any length would be a loop over the tails.
#[tactic(auto, using(crate::proofs::Rows::two_good, crate::proofs::Rows::two_bad), unfolding(crate::specs::Utf8::two))]
#[inline(always)]
fn pair(a: u8, rest: &[u8]) -> Option<Point>
    ensures { result ≡ two a rest.now }
{
    match rest {
        [b, ..] if is_tail(*b) => Some(Point {
            code: u32::from(a) % 32 * 64 + u32::from(*b) % 64,
            len: 2,
        }),
        _ => None,
    }
}

#[tactic(auto, using(crate::proofs::Rows::three_good, crate::proofs::Rows::three_bad), unfolding(crate::specs::Utf8::three))]
#[inline(always)]
fn triple(a: u8, low: u8, high: u8, rest: &[u8]) -> Option<Point>
    ensures { result ≡ three a low high rest.now }
{
    match rest {
        [b, c, ..] if within(low, high, *b) & is_tail(*c) => Some(Point {
            code: u32::from(a) % 16 * 4096 + u32::from(*b) % 64 * 64 + u32::from(*c) % 64,
            len: 3,
        }),
        _ => None,
    }
}

#[tactic(auto, using(crate::proofs::Rows::four_good, crate::proofs::Rows::four_bad), unfolding(crate::specs::Utf8::four))]
#[inline(always)]
fn quad(a: u8, low: u8, high: u8, rest: &[u8]) -> Option<Point>
    ensures { result ≡ four a low high rest.now }
{
    match rest {
        [b, c, d, ..] if within(low, high, *b) & is_tail(*c) & is_tail(*d) => Some(Point {
            code: u32::from(a) % 8 * 262144
                + u32::from(*b) % 64 * 4096
                + u32::from(*c) % 64 * 64
                + u32::from(*d) % 64,
            len: 4,
        }),
        _ => None,
    }
}

// The rows of the table past the first. They go into each loop with `first_point`: handed back in memory, a text of points of two bytes took half as long again.
#[inline(always)]
#[tactic(auto, using(crate::proofs::Rows::rows))]
fn beyond(a: u8, rest: &[u8]) -> Option<Point>
    requires { 0x7f < a }
    ensures { result ≡ step_of (a ∷ rest.now) }
{
    match a {
        0xc2..=0xdf => pair(a, rest),
        0xe0 => triple(a, 0xa0, 0xbf, rest),
        0xe1..=0xec => triple(a, 0x80, 0xbf, rest),
        0xed => triple(a, 0x80, 0x9f, rest),
        0xee..=0xef => triple(a, 0x80, 0xbf, rest),
        0xf0 => quad(a, 0x90, 0xbf, rest),
        0xf1..=0xf3 => quad(a, 0x80, 0xbf, rest),
        0xf4 => quad(a, 0x80, 0x8f, rest),
        _ => None,
    }
}

// The code point that some bytes begin with, by the table of RFC 3629; none where they begin with nothing well-formed.
#[inline(always)]
#[tactic(auto, using(crate::proofs::Rows::row_1), unfolding(crate::specs::Utf8::step_of))]
pub(crate) fn first_point(s: &[u8]) -> Option<Point>
    ensures { result ≡ step_of s.now }
{
    let [a, rest @ ..] = s else {
        return None;
    };
    if *a <= 0x7f {
        return Some(Point {
            code: u32::from(*a),
            len: 1,
        });
    }
    beyond(*a, rest)
}

// The code point that begins at `at`.
#[tactic(auto, using(crate::proofs::Rows::past_end))]
pub fn decode(s: &[u8], at: usize) -> Option<Point>
    ensures { result ≡ step_of (drop at s.now) }
{
    first_point(s.get(at..)?)
}
