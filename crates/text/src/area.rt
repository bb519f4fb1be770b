// A text in its working area, and what puts bytes there.
ghost use Rattle.std.specs.Prelude.{◌≡◌, ◌+◌, ◌≤◌, length, take};
ghost use Rattle.ascii.specs.Area.{put};
ghost use Rattle.text.specs.Answer.{refusal, text_in};
ghost use Rattle.text.specs.Inner.{IsRun, Blank};

use super::white::is_dark_byte;
use answer::Reason;

// A text in its working area: its length, its bytes, and zeros after them; or why it is refused, and zeros alone.
// The area has one size, since the library has no heap.
#[derive(Drop)]
pub struct Text {
    pub kept: Result<usize, Reason>,
    pub bytes: [u8; 1024],
}

// The first n bytes of an area, lent and not copied; all of them where there are no more.
pub fn first_bytes(area: &[u8], n: usize) -> &[u8]
    ensures { result.now ≡ take n area.now }
{
    area.get(..n).unwrap_or(area)
}

#[tactic(auto, unfolding(crate::specs::Answer::refusal, crate::specs::Answer::padded))]
pub(crate) fn refuse(reason: Reason, out: &mut [u8; 1024]) -> Result<usize, Reason>
    ensures { text_in result out.new ≡ refusal reason }
{
    *out = [0u8; 1024];
    Err(reason)
}

// The bytes of a code point go to the area, from n on. Byte by byte: copy_from_slice calls memmove for two to four bytes, which is slower.
pub(crate) fn put(out: &mut [u8; 1024], n: usize, bytes: &[u8])
    requires { (n + length bytes.now ≤ 1024) × (length out.old ≡ 1024) }
    ensures { out.new ≡ put out.old n bytes.now }
{
    if let [b] = bytes {
        out[n] = *b;
        return;
    }
    for k in 0..bytes.len() {
        out[n + k] = bytes[k];
    }
}

// The bytes at the front that are code points by themselves and not white go to the area, from n on; how many they are. One index
// for both, since the first other byte ends it.
pub(crate) fn put_dark(s: &[u8], out: &mut [u8; 1024], n: usize) -> usize
    requires { (n + length s.now ≤ 1024) × (length out.old ≡ 1024) }
    ensures { IsRun s.now out.old n result out.new }
{
    for k in 0..s.len() {
        let b = s[k];
        if !is_dark_byte(b) {
            return k;
        }
        out[n + k] = b;
    }
    s.len()
}

// How many spaces stand at the front.
pub(crate) fn spaces(s: &[u8]) -> usize
    ensures { Blank s.now result }
{
    for k in 0..s.len() {
        if s[k] != b' ' {
            return k;
        }
    }
    s.len()
}
