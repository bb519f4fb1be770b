// Stripping and normalising.
ghost use Rattle.std.specs.Prelude.{◌≡◌, replicate};
ghost use Rattle.std.specs.Fn.{FnOnceReturnsAtMut};
ghost use Rattle.ascii.specs.Pick.{pick};
ghost use Rattle.text.specs.Answer.{stripped_text, normal_text, text_in};

use super::area::{Text, put, put_dark, refuse, spaces};
use super::utf8::first_point;
use super::white::is_white;
use answer::Reason;

// The content's words in the caller's area: if `spaced` with one space between two of them, and else with nothing. A
// flag and no function: they differ in one byte.
#[inline(always)]
fn put_words(s: &[u8], spaced: bool, out: &mut [u8; 1024]) -> Result<usize, Reason>
    ensures { text_in result out.new ≡ pick spaced (normal_text s.now) (stripped_text s.now) }
{
    if 1024 < s.len() {
        return refuse(Reason::Long, out);
    }
    *out = [0u8; 1024];
    let mut n: usize = 0;
    // a space is due: white stands before `rest`, and a word before that
    let mut due = false;
    // before the first word there may be many
    let mut rest = s.split_at(spaces(s)).1;
    loop {
        if !due {
            let k = put_dark(rest, out, n);
            n += k;
            rest = rest.split_at(k).1;
        }
        // the commonest white point, without decoding it
        if let [first, ..] = rest
            && *first == b' '
        {
            due = spaced & (0 < n);
            rest = rest.split_at(1).1;
            continue;
        }
        let Some(point) = first_point(rest) else {
            break;
        };
        let (bytes, behind) = rest.split_at(point.len);
        if is_white(point.code) {
            due = spaced & (0 < n);
        } else {
            if due {
                out[n] = b' ';
                n += 1;
            }
            put(out, n, bytes);
            n += bytes.len();
            due = false;
        }
        rest = behind;
    }
    if rest.is_empty() {
        Ok(n)
    } else {
        refuse(Reason::Utf8, out)
    }
}

// A text in an area of its own, which costs a copy.
fn by_value<F: FnOnce(&mut [u8; 1024]) -> Result<usize, Reason>>(fill: F) -> Text
    requires { F.IsAlwaysCallable fill }
    ensures { FnOnceReturnsAtMut F.FnOnce fill (replicate 1024 0) result.kept result.bytes }
{
    let mut bytes = [0u8; 1024];
    let kept = fill(&mut bytes);
    Text { kept, bytes }
}

// The content without its white points, in the caller's area.
#[tactic(auto, unfolding(ascii::specs::Pick::pick))]
pub fn strip_into(s: &[u8], out: &mut [u8; 1024]) -> Result<usize, Reason>
    ensures { text_in result out.new ≡ stripped_text s.now }
{
    put_words(s, false, out)
}

// The same by value, which costs a copy.
pub fn strip(s: &[u8]) -> Text
    ensures { result ≡ stripped_text s.now }
{
    by_value(|area| strip_into(s, area))
}

// The content without white at its ends, and with one space for each run of white within, in the caller's area.
#[tactic(auto, unfolding(ascii::specs::Pick::pick))]
pub fn normalize_into(s: &[u8], out: &mut [u8; 1024]) -> Result<usize, Reason>
    ensures { text_in result out.new ≡ normal_text s.now }
{
    put_words(s, true, out)
}

// The same by value.
pub fn normalize_space(s: &[u8]) -> Text
    ensures { result ≡ normal_text s.now }
{
    by_value(|area| normalize_into(s, area))
}
