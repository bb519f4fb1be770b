// Which contents can be read.
ghost use Rattle.std.specs.Prelude.{◌≡◌, nat_le};
ghost use Rattle.ascii.specs.Class.{all};
ghost use Rattle.text.specs.Answer.{readable_of};

use super::utf8::first_point;
use answer::Reason;

// Whether every byte is a code point by itself. Without a way out of its loop the compiler looks at several bytes at once.
fn is_ascii(s: &[u8]) -> bool
    ensures { result ≡ all (λ b. nat_le b 0x7f) s.now }
{
    s.iter().fold(true, |ascii, b| ascii & (*b <= 0x7f))
}

// Whether a content can be read, and why not: it is over 1,024 bytes, or else not UTF-8.
pub fn readable(s: &[u8]) -> Result<(), Reason>
    ensures { result ≡ readable_of s.now }
{
    if 1024 < s.len() {
        return Err(Reason::Long);
    }
    if is_ascii(s) {
        return Ok(());
    }
    let mut rest = s;
    while let Some(point) = first_point(rest) {
        rest = rest.split_at(point.len).1;
    }
    if rest.is_empty() {
        Ok(())
    } else {
        Err(Reason::Utf8)
    }
}
