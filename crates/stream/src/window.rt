// A stream of lines, answered and counted window by window.
ghost use Rattle.std.specs.Prelude.{◌≡◌, ◌+◌, ◌≤◌, length, take, drop};
ghost use Rattle.ascii.specs.Area.{Put};
ghost use Rattle.answer.specs.Text.{answer_room};
ghost use Rattle.lines.specs.Inner.{upto};
ghost use Rattle.stream.specs.Turn.{clipped, closing_room};
ghost use Rattle.stream.specs.Inner.{FedRight, StepRight, LastRight, ClosedRight};

use super::put::{ANSWER_ROOM, put_line};
use lines::{LINE_BYTES, line_len};
use tally::{fewer, left, put_text};

#[derive(Clone, Copy)]
struct Fed {
    used: usize,
    put: usize,
}

// Answers the whole lines of s, one after the other, as long as out has room for an answer. The counts are added up once. Not batch's
// loop: here a line without its newline waits, and there it is the last one.
fn feed(s: &[u8], out: &mut [u8], counts: &mut [u32; 53]) -> Fed
    ensures right { FedRight s.now counts.old counts.new out.old out.new result.used result.put }
    ensures within { result.used ≤ length s.now }
{
    let mut more = left(counts);
    let mut used = 0;
    let mut put = 0;
    for _ in 0..out.len() / ANSWER_ROOM {
        let rest = &s[used..];
        let n = line_len(rest);
        if n == rest.len() {
            return Fed { used, put };
        }
        put = put_line(&rest[..n], out, put, counts, more);
        more = fewer(more);
        used += n + 1;
    }
    Fed { used, put }
}

// What is kept of a rest: of a line that no newline ends yet, the bytes that are read.
#[tactic(auto, using(crate::proofs::Windows::clipped_ended, crate::proofs::Windows::clipped_part))]
fn kept(rest: &[u8]) -> &[u8]
    ensures { result.now ≡ clipped rest.now }
{
    if line_len(rest) < rest.len() {
        return rest;
    }
    &rest[..rest.len().min(LINE_BYTES)]
}

#[derive(Clone, Copy)]
pub(crate) struct Stepped {
    pub kept: usize,
    pub put: usize,
}

// Stores the answers to the whole lines of buf[..n] at the start of out, and moves what is kept of the rest to the start of buf.
pub(crate) fn step(buf: &mut [u8], n: usize, out: &mut [u8], counts: &mut [u32; 53]) -> Stepped
    requires { n ≤ length buf.old }
    ensures { StepRight (take n buf.old) buf.old buf.new out.old out.new counts.old counts.new result.kept result.put }
{
    let Fed { used, put } = feed(&buf[..n], out, counts);
    let keep = kept(&buf[used..n]).len();
    buf.copy_within(used..used + keep, 0);
    Stepped { kept: keep, put }
}

// The answer to a last line that no newline ends, where it has a byte.
fn last(s: &[u8], out: &mut [u8], counts: &mut [u32; 53]) -> usize
    requires one_line { upto s.now ≡ length s.now }
    requires room { answer_room ≤ length out.old }
    ensures { LastRight s.now counts.old counts.new out.old out.new result }
{
    if s.is_empty() {
        return 0;
    }
    let more = left(counts);
    put_line(s, out, 0, counts, more)
}

// The end: a last line's answer, and the text of the tally.
pub(crate) fn close(s: &[u8], out: &mut [u8], counts: &mut [u32; 53]) -> usize
    requires one_line { upto s.now ≡ length s.now }
    requires room { closing_room ≤ length out.old }
    ensures { ClosedRight s.now counts.old counts.new out.old out.new result }
{
    let put = last(s, out, counts);
    put_text(counts, out, put)
}
