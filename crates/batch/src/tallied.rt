// Many lines, fed to a tally.
ghost use Rattle.batch.specs.Batch.{TallyRight};

use super::each::{Batch, answer_each};
use tally::{count, fewer, left};

// Feeds the lines of s to a tally, one after the other, as long as out has room for an answer. The counts are added up once.
pub fn tally_lines(s: &[u8], counts: &mut [u32; 53], out: &mut [u32]) -> Batch
    ensures { TallyRight s.now counts.old counts.new out.old out.new result.count result.used }
{
    let mut more = left(counts);
    let mut feed = |line: &[u8]| {
        let a = count(counts, more == 0, line);
        more = fewer(more);
        a
    };
    answer_each(s, out, &mut feed)
}
