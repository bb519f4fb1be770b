// Numbers as text, stored in an area.
ghost use Rattle.std.specs.Prelude.{◌≡◌, ◌+◌, ◌%◌, ◌≤◌, length};
ghost use Rattle.ascii.specs.Area.{Put};
ghost use Rattle.answer.specs.Text.{numeral, field};

// The last digit of a number, as it is written. Std's char::from_digit gives a char, and perhaps none.
fn last_digit(n: u32) -> u8
    ensures { result ≡ 48 + n % 10 }
{
    (48 + n % 10) as u8
}

// Stores a number in decimal from `at` on, and says where it ends. There is room for it.
fn put_numeral(out: &mut [u8], at: usize, n: u32) -> usize
    requires { at + length (numeral n) ≤ length out.old }
    ensures { Put (length (numeral n)) out.old at (numeral n) result out.new }
{
    if n < 10 {
        out[at] = last_digit(n);
        return at + 1;
    }
    let k = put_numeral(out, at, n / 10);
    out[k] = last_digit(n);
    k + 1
}

// The same, and the byte behind it.
pub(crate) fn put_field(out: &mut [u8], at: usize, n: u32, behind: u8) -> usize
    requires { at + length (field n behind) ≤ length out.old }
    ensures { Put (length (field n behind)) out.old at (field n behind) result out.new }
{
    let k = put_numeral(out, at, n);
    out[k] = behind;
    k + 1
}
