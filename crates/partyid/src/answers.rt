// Lines: one, and many at once.
ghost use Rattle.std.specs.Prelude.{◌≡◌};
ghost use Rattle.lines.specs.Line.{answer_of};
ghost use Rattle.lines.specs.Lines.{answers_to};
ghost use Rattle.batch.specs.Batch.{BatchRight};
ghost use Rattle.partyid.specs.Plain.{plain_answer};

use super::plain::{PartyidAnswer, PartyidBatch};

#[unsafe(no_mangle)]
pub extern "C" fn partyid_answer_line(line: &[u8]) -> PartyidAnswer
    ensures { result ≡ plain_answer (answer_of line.now) }
{
    PartyidAnswer::from(lines::answer_line(line))
}

#[unsafe(no_mangle)]
pub extern "C" fn partyid_answer_lines(text: &[u8], out: &mut [u32]) -> PartyidBatch
    ensures { BatchRight answers_to text.now out.old out.new result.count result.used }
{
    PartyidBatch::from(batch::answer_lines(text, out))
}
