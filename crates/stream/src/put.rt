// The text of an answer. Writers take an area and the place where the next byte goes, and hand back where it ends: areas are lent, and `Put` says what became
// of one.
ghost use Rattle.std.specs.Prelude.{◌≡◌, ◌+◌, ◌≤◌, ◌<◌, length};
ghost use Rattle.ascii.specs.Area.{Put};
ghost use Rattle.answer.specs.Text.{numeral, field, answer_text, answer_room};
ghost use Rattle.stream.specs.Inner.{LineRight};

use answer::Answer;

// The bytes that an answer's text takes at most.
pub(crate) const ANSWER_ROOM: usize = 16;

fn digit(d: u32) -> u8
    requires { d < 10 }
    ensures { result ≡ 48 + d }
{
    (48 + d) as u8
}

// A number of an answer, of at most three digits. With `tally`'s, which calls itself for each further digit, the line program takes 6 % longer.
fn put_number(out: &mut [u8], at: usize, n: u32) -> usize
    requires room { at + 3 ≤ length out.old }
    requires small { n < 1000 }
    ensures { Put 3 out.old at (numeral n) result out.new }
{
    if n < 10 {
        out[at] = digit(n);
        return at + 1;
    }
    let low = digit(n % 10);
    let tens = n / 10;
    let k = at + 1;
    if tens < 10 {
        out[at] = digit(tens);
        out[k] = low;
        return k + 1;
    }
    let m = k + 1;
    out[at] = digit(tens / 10);
    out[k] = digit(tens % 10);
    out[m] = low;
    m + 1
}

// A number and the byte behind it.
fn put_field(out: &mut [u8], at: usize, n: u32, behind: u8) -> usize
    requires room { at + 4 ≤ length out.old }
    requires small { n < 1000 }
    ensures { Put 4 out.old at (field n behind) result out.new }
{
    let k = put_number(out, at, n);
    out[k] = behind;
    k + 1
}

// Stores an answer from `at` on, and says where its text ends.
fn put_answer(a: Answer, out: &mut [u8], at: usize) -> usize
    requires room { at + answer_room ≤ length out.old }
    requires small { a.rule < 1000 }
    ensures { Put answer_room out.old at (answer_text a) result out.new }
{
    let [verdict, rule, severity, reason] = a.numbers();
    let k = put_field(out, at, verdict, b' ');
    let m = put_field(out, k, rule, b' ');
    let n = put_field(out, m, severity, b' ');
    put_field(out, n, reason, b'\n')
}

// Feeds a line to a tally that counts so many more lines, and stores its answer. One function, so that the answer need not go through memory.
pub(crate) fn put_line(
    line: &[u8],
    out: &mut [u8],
    at: usize,
    counts: &mut [u32; 53],
    more: u32,
) -> usize
    requires { at + answer_room ≤ length out.old }
    ensures { LineRight more line.now counts.old counts.new out.old out.new at result }
{
    let a = tally::count(counts, more == 0, line);
    put_answer(a, out, at)
}
