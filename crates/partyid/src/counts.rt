// Lines that are fed to a tally: one, and many at once.
ghost use Rattle.tally.specs.Tally.{fed};
ghost use Rattle.batch.specs.Batch.{TallyRight};
ghost use Rattle.partyid.specs.Plain.{FedPlain};

use super::plain::{PartyidAnswer, PartyidBatch};

#[unsafe(no_mangle)]
pub extern "C" fn partyid_tally_line(line: &[u8], counts: &mut [u32; 53]) -> PartyidAnswer
    ensures { FedPlain (fed counts.old line.now) result counts.new }
{
    PartyidAnswer::from(tally::feed_line(counts, line))
}

#[unsafe(no_mangle)]
pub extern "C" fn partyid_tally_lines(
    text: &[u8],
    counts: &mut [u32; 53],
    out: &mut [u32],
) -> PartyidBatch
    ensures { TallyRight text.now counts.old counts.new out.old out.new result.count result.used }
{
    PartyidBatch::from(batch::tally_lines(text, counts, out))
}
