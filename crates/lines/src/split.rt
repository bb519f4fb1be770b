// Where a line ends.
ghost use Rattle.std.specs.Prelude.{◌≡◌, false, ◌+◌, ◌≤◌, length, drop};
ghost use Rattle.lines.specs.Inner.{upto};

use memchr::memchr;

// Whether one of the eight bytes from i on is a newline: eight tests without a branch.
fn ends_in_eight(s: &[u8], i: usize) -> bool
    requires { i + 8 ≤ length s.now }
    ensures { result ≡ false → upto (drop i s.now) ≡ 8 + upto (drop (i + 8) s.now) }
{
    let a = (s[i] == b'\n') | (s[i + 1] == b'\n');
    let b = (s[i + 2] == b'\n') | (s[i + 3] == b'\n');
    let c = (s[i + 4] == b'\n') | (s[i + 5] == b'\n');
    let d = (s[i + 6] == b'\n') | (s[i + 7] == b'\n');
    (a | b) | (c | d)
}

// So many bytes are looked at here: by memchr alone many empty lines took twice as long and more.
const NEAR: usize = 16;

// How many bytes can be passed over, eight by eight, before a newline is near; all that are looked at, where none is.
#[inline(always)]
fn skip(s: &[u8]) -> usize
    ensures within { result ≤ length s.now }
    ensures exact { upto s.now ≡ result + upto (drop result s.now) }
{
    if s.len() < 8 || ends_in_eight(s, 0) {
        return 0;
    }
    if s.len() < NEAR || ends_in_eight(s, 8) {
        return 8;
    }
    NEAR
}

// `position` goes byte by byte, and takes more than twice as long for a line of 12 bytes or more.
#[tactic(auto, using(crate::proofs::Splits::upto_found, crate::proofs::Splits::upto_le))]
fn far_len(s: &[u8]) -> usize
    ensures within { result ≤ length s.now }
    ensures exact { result ≡ upto s.now }
{
    memchr(b'\n', s).unwrap_or(s.len())
}

// How many bytes of s stand before its first newline; all where there is none. Inlined: by a call many empty lines took a quarter more.
#[inline(always)]
pub fn line_len(s: &[u8]) -> usize
    ensures within { result ≤ length s.now }
    ensures exact { result ≡ upto s.now }
{
    let near = skip(s);
    if near == NEAR {
        return near + far_len(&s[near..]);
    }
    for i in near..s.len() {
        if s[i] == b'\n' {
            return i;
        }
    }
    s.len()
}
