// The answer to one line.
ghost use Rattle.std.specs.Prelude.{◌≡◌};
ghost use Rattle.lines.specs.Line.{answer_of};

use answer::{Answer, Reason};

// The bytes that are read of a line: 8 of its head, and one more of its content than a rule may read.
pub const LINE_BYTES: usize = 1033;

// The answer to a line, its newline left out. Content beyond 1,025 bytes is not looked at.
#[tactic(auto, unfolding(crate::specs::Line::answer_of, crate::specs::Line::head_ok, crate::specs::Line::term_of, ascii::specs::Class::is_digit, ascii::specs::Class::within, ascii::specs::Pick::pick), using(crate::proofs::Heads::content_part))]
pub fn answer_line(line: &[u8]) -> Answer
    ensures { result ≡ answer_of line.now }
{
    if let [_, _, _, _, b' ', tens, ones, b' ', ..] = line
        && tens.is_ascii_digit()
        && ones.is_ascii_digit()
    {
        let term = 10 * u32::from(tens - b'0') + u32::from(ones - b'0');
        let end = line.len().min(LINE_BYTES);
        return checks::check(&line[..4], term, &line[8..end]);
    }
    answer::refused(0, None, Reason::Line)
}
