// The entries of a list, each in its own part of the area, one after another.
ghost use Rattle.std.specs.Prelude.{◌+◌, ◌≤◌, ◌<◌, length};
ghost use Rattle.ascii.specs.Area.{joined, put, Put};
ghost use Rattle.figures.specs.Changes.{exchanged};
ghost use Rattle.corrections.specs.Five.{rule_of};
ghost use Rattle.corrections.specs.Corrections.{if_accepted, fixes_at, corrections};
ghost use Rattle.corrections.specs.Listing.{room_for};

use super::number::Number;

// The digits s with others from place i on, written at `at`; hands back where they end.
fn put_changed(s: &[u8], i: usize, others: &[u8], out: &mut [u8], at: usize) -> usize
    requires inside { i + length others.now ≤ length s.now }
    requires room { at + length s.now ≤ length out.old }
    ensures { Put (length s.now) out.old at (put s.now i others.now) result out.new }
{
    let end = at + s.len();
    let row = &mut out[at..end];
    row.copy_from_slice(s);
    row[i..i + others.len()].copy_from_slice(others);
    end
}

// The replacement at one place, if there is one, written at `at`; hands back where it ends.
fn put_replacement(number: &Number, i: usize, out: &mut [u8], at: usize) -> usize
    requires inside { i < length number.now.digits.now }
    requires room { at + length number.now.digits.now ≤ length out.old }
    ensures { let s = number.now.digits.now in Put (length s) out.old at (joined (fixes_at (rule_of number.now.kind) s i)) result out.new }
{
    match number.digit_at(i) {
        Some(d) => put_changed(number.digits, i, &[b'0' + d], out, at),
        None => at,
    }
}

// The exchange at one place, if the rule accepts it.
fn put_exchange(number: &Number, i: usize, out: &mut [u8], at: usize) -> usize
    requires inside { i + 1 < length number.now.digits.now }
    requires room { at + length number.now.digits.now ≤ length out.old }
    ensures { let s = number.now.digits.now in
        Put (length s) out.old at (joined (if_accepted (rule_of number.now.kind) (exchanged s i))) result out.new }
{
    let s = number.digits;
    if number.accepts_exchanged(i) {
        return put_changed(s, i, &[s[i + 1], s[i]], out, at);
    }
    at
}

// All replacements and then all exchanges, from the area's start on; hands back where they end.
pub(crate) fn put_corrections(number: &Number, out: &mut [u8]) -> usize
    requires { room_for (length number.now.digits.now) ≤ length out.old }
    ensures { let s = number.now.digits.now in
        Put (room_for (length s)) out.old 0 (joined (corrections (rule_of number.now.kind) s)) result out.new }
{
    let n = number.digits.len();
    let mut at = 0;
    for i in 0..n {
        at = put_replacement(number, i, out, at);
    }
    for i in 0..n - 1 {
        at = put_exchange(number, i, out, at);
    }
    at
}
