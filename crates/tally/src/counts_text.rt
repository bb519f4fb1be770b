// A tally as text.
ghost use Rattle.std.specs.Prelude.{◌≡◌, ◌+◌, ◌≤◌, [], ◌∷◌, length, nat_le};
ghost use Rattle.ascii.specs.Area.{Put};
ghost use Rattle.ascii.specs.Pick.{pick};
ghost use Rattle.answer.specs.Text.{numbers_text};
ghost use Rattle.tally.specs.Text.{tally_text, tally_room};

use super::numeral::put_field;

// The bytes that a tally's text takes at most.
const ROOM: usize = 770;

// The rules in the order of their numbers.
const NUMBERS: [u32; 17] = [
    40, 41, 42, 43, 44, 45, 46, 47, 49, 50, 52, 53, 54, 55, 57, 561, 562,
];

// A rule's number and its three counts.
fn put_line(number: u32, counts: &[u32], out: &mut [u8], at: usize) -> usize
    requires three { length counts.now ≡ 3 }
    requires room { at + 44 ≤ length out.old }
    ensures { Put 44 out.old at (numbers_text (number ∷ counts.now)) result out.new }
{
    let k = put_field(out, at, number, b' ');
    let m = put_field(out, k, counts[0], b' ');
    let n = put_field(out, m, counts[1], b' ');
    put_field(out, n, counts[2], b'\n')
}

// The two others. Not one function with a rule's line, nor with the stream's answer: a line has two, four or four smaller numbers, and tells the room for each.
fn put_others(others: &[u32], out: &mut [u8], at: usize) -> usize
    requires two { length others.now ≡ 2 }
    requires room { at + 22 ≤ length out.old }
    ensures { Put 22 out.old at (numbers_text others.now) result out.new }
{
    let k = put_field(out, at, others[0], b' ');
    put_field(out, k, others[1], b'\n')
}

fn put_lines(counts: &[u32; 53], out: &mut [u8], at: usize) -> usize
    requires { at + tally_room ≤ length out.old }
    ensures { Put tally_room out.old at (tally_text counts.now) result out.new }
{
    let mut end = at;
    for (i, number) in NUMBERS.iter().enumerate() {
        let cell = 3 * i;
        end = put_line(*number, &counts[cell..cell + 3], out, end);
    }
    put_others(&counts[51..], out, end)
}

// Stores the text of a tally from `at` on, and says where it ends; nothing where it might not fit.
pub fn put_text(counts: &[u32; 53], out: &mut [u8], at: usize) -> usize
    ensures { Put tally_room out.old at (pick (nat_le (at + tally_room) (length out.old)) (tally_text counts.now) []) result out.new }
{
    let fits = ROOM <= out.len().saturating_sub(at);
    if fits {
        return put_lines(counts, out, at);
    }
    at
}
