// Numbers as text, stored in an area that another crate lends.
ghost use Rattle.std.specs.Prelude.{◌≡◌, ◌+◌, ◌%◌, ◌≤◌, ◌<◌, [], length, nat_le};
ghost use Rattle.ascii.specs.Area.{Put};
ghost use Rattle.answer.specs.Text.{numeral, field};

// How many digits a number has.
fn numeral_len(n: u32) -> usize
    ensures { result ≡ length (numeral n) }
{
    if 10 <= n {
        return numeral_len(n / 10) + 1;
    }
    1
}

// Whether so many bytes have room from `at` on.
fn fits(out: &[u8], at: usize, len: usize) -> bool
    ensures { result ≡ nat_le (at + len) (length out.now) }
{
    len <= out.len() && at <= out.len() - len
}

// The last digit of a number, as it is written. Std's char::from_digit gives a char, and perhaps none.
fn last_digit(n: u32) -> u8
    ensures { result ≡ 48 + n % 10 }
{
    (48 + n % 10) as u8
}

// Stores the digits of a number, for which there is room.
fn put_digits(out: &mut [u8], at: usize, n: u32) -> usize
    requires { at + length (numeral n) ≤ length out.old }
    ensures { Put (length (numeral n)) out.old at (numeral n) result out.new }
{
    if n < 10 {
        out[at] = last_digit(n);
        return at + 1;
    }
    let k = put_digits(out, at, n / 10);
    out[k] = last_digit(n);
    k + 1
}

// Stores a number in decimal from `at` on, and says where it ends. Where not all of it has room, it stores nothing and says `at`.
pub fn put_numeral(out: &mut [u8], at: usize, n: u32) -> usize
    ensures stored { at + length (numeral n) ≤ length out.old → Put (length (numeral n)) out.old at (numeral n) result out.new }
    ensures no_room { length out.old < at + length (numeral n) → Put 0 out.old at [] result out.new }
{
    if !fits(out, at, numeral_len(n)) {
        return at;
    }
    put_digits(out, at, n)
}

// Stores a number and the byte behind it, likewise: both, or nothing.
pub fn put_field(out: &mut [u8], at: usize, n: u32, behind: u8) -> usize
    ensures stored { at + length (field n behind) ≤ length out.old → Put (length (field n behind)) out.old at (field n behind) result out.new }
    ensures no_room { length out.old < at + length (field n behind) → Put 0 out.old at [] result out.new }
{
    if !fits(out, at, numeral_len(n) + 1) {
        return at;
    }
    let k = put_digits(out, at, n);
    out[k] = behind;
    k + 1
}

#[cfg(test)]
mod tests {
    use super::*;

    // A number, its place, where it ends, and what an area of twelve points has become.
    #[test]
    fn a_numeral_stands_where_it_has_room(rt: HostRuntime) {
        for (n, at, end, area) in [
            (0, 0, 1, b"0..........."),
            (9, 11, 12, b"...........9"),
            (9, 12, 12, b"............"),
            (10, 10, 12, b"..........10"),
            (10, 11, 11, b"............"),
            (90_307, 4, 9, b"....90307..."),
            (999_999_999, 3, 12, b"...999999999"),
            (1_000_000_000, 3, 3, b"............"),
            (4_294_967_295, 2, 12, b"..4294967295"),
            (4_294_967_295, 3, 3, b"............"),
            (5, usize::MAX, usize::MAX, b"............"),
        ] {
            let mut out = *b"............";
            assert_eq!(rt; put_numeral(&mut out, at, n), end, "{n} at {at}");
            assert_eq!(rt; out, *area, "{n} at {at}");
        }
        assert_eq!(rt; put_numeral(&mut [], 0, 0), 0, "no area");
    }

    #[test]
    fn a_field_stands_where_it_has_room(rt: HostRuntime) {
        for (n, at, end, area) in [
            (0, 0, 2, b"0;.........."),
            (9, 10, 12, b"..........9;"),
            (9, 11, 11, b"............"),
            (90_307, 4, 10, b"....90307;.."),
            (4_294_967_295, 1, 12, b".4294967295;"),
            (4_294_967_295, 2, 2, b"............"),
            (5, usize::MAX, usize::MAX, b"............"),
        ] {
            let mut out = *b"............";
            assert_eq!(rt; put_field(&mut out, at, n, b';'), end, "{n} at {at}");
            assert_eq!(rt; out, *area, "{n} at {at}");
        }
        assert_eq!(rt; put_field(&mut [], 0, 0, b';'), 0, "no area");
    }
}
