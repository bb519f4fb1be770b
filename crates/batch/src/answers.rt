// Many lines, each answered by itself.
ghost use Rattle.lines.specs.Lines.{answers_to};
ghost use Rattle.batch.specs.Batch.{BatchRight};

use super::each::{Batch, answer_each};
use lines::answer_line;

// Answers the lines of s, one after the other, as long as out has room for an answer. The function goes as a closure: of the name alone, from another
// crate, no contract is found.
pub fn answer_lines(s: &[u8], out: &mut [u32]) -> Batch
    ensures { BatchRight answers_to s.now out.old out.new result.count result.used }
{
    answer_each(s, out, &mut |line: &[u8]| answer_line(line))
}
