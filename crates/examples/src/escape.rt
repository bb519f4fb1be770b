// A content as it stands in a line: `\` and two hexadecimal digits are a byte, any other byte is itself.
ghost use Rattle.std.specs.Prelude.{◌≡◌, ◌↔◌, ◌-◌, ◌<◌, ◌≤◌, length, drop, IsSome, IfSome};

// A hexadecimal digit's value, and 0 for any other byte; a capital is none.
fn hex_value(b: u8) -> u8
    ensures { result < 16 }
{
    match b {
        b'0'..=b'9' => b - b'0',
        b'a'..=b'f' => b - b'a' + 10,
        _ => 0,
    }
}

// The byte that begins a line, and what stands behind it.
fn take_byte(s: &[u8]) -> Option<(u8, &[u8])>
    ensures found { IsSome result ↔ (0 < length s.now) }
    ensures shorter { IfSome result (λ taken. length taken.1.now < length s.now) }
    ensures rest { IfSome result (λ taken. taken.1.now ≡ drop (length s.now - length taken.1.now) s.now) }
{
    match s {
        [b'\\', high, low, rest @ ..] => Some((hex_value(*high) * 16 + hex_value(*low), rest)),
        [b, rest @ ..] => Some((*b, rest)),
        [] => None,
    }
}

// The content goes to the area; its length comes back. What the area can't hold is left out.
pub(crate) fn unescape(s: &[u8], out: &mut [u8; 2048]) -> usize
    ensures { result ≤ 2048 }
{
    let mut rest = s;
    for (n, place) in out.iter_mut().enumerate() {
        let Some((byte, behind)) = take_byte(rest) else {
            return n;
        };
        *place = byte;
        rest = behind;
    }
    2048
}
