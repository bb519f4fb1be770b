// Feeding a tally.
ghost use Rattle.std.specs.Prelude.{◌≡◌, ◌-◌, ◌<◌, ◌≤◌, length};
ghost use Rattle.tally.specs.Cell.{tally_size};
ghost use Rattle.tally.specs.Tally.{fresh, sum_of, full_answer, fed};
ghost use Rattle.tally.specs.Inner.{left_in, raised, fed_if, fed_in};

use super::cells::cell;
use answer::{Answer, Reason};

// The lines that a tally counts at most.
const LIMIT: u64 = 4294967295;

// A line's answer, and the counts after it.
#[derive(Drop)]
pub struct Fed {
    pub answer: Answer,
    pub counts: [u32; 53],
}

pub fn fresh() -> [u32; 53]
    ensures { result ≡ fresh }
{
    [0u32; 53]
}

fn total(counts: &[u32]) -> u64
    requires { length counts.now ≤ tally_size }
    ensures { result ≡ sum_of counts.now }
{
    counts.iter().map(|count| u64::from(*count)).sum()
}

// How many more lines are counted. That there are 53 counts, which their type says, is told to loops that cite it.
#[tactic(auto, unfolding(crate::specs::Inner::left_in))]
pub fn left(counts: &[u32; 53]) -> u32
    ensures exact { result ≡ left_in counts.now }
    ensures size { length counts.now ≡ tally_size }
{
    LIMIT.saturating_sub(total(counts)) as u32
}

// After a line that is fed.
pub fn fewer(left: u32) -> u32
    ensures { result ≡ left - 1 }
{
    left.saturating_sub(1)
}

fn full_answer() -> Answer
    ensures { result ≡ full_answer }
{
    answer::refused(0, None, Reason::Full)
}

#[tactic(auto, unfolding(crate::specs::Inner::raised))]
fn raise(counts: &mut [u32], cell: usize)
    requires { cell < length counts.old }
    ensures { counts.new ≡ raised counts.old cell }
{
    counts[cell] = counts[cell].wrapping_add(1);
}

// Feeds a line to a tally of which the caller knows whether it is full: a loop over lines need not add up the counts for each. No struct holds
// the counts and how many more there may be: C lends an array, and each of the three functions has a promise of its own.
#[tactic(auto, using(crate::proofs::Answers::line_proper), unfolding(crate::specs::Inner::fed_if, ascii::specs::Pick::pick))]
pub fn count(counts: &mut [u32; 53], full: bool, line: &[u8]) -> Answer
    ensures { fed_in result counts.new ≡ fed_if full counts.old line.now }
{
    if full {
        return full_answer();
    }
    let a = lines::answer_line(line);
    raise(counts, cell(a));
    a
}

// Feeds a line, its newline left out, to a tally that the caller lends.
#[tactic(auto, using(crate::proofs::Feeding::fed_by_left))]
pub fn feed_line(counts: &mut [u32; 53], line: &[u8]) -> Answer
    ensures { fed_in result counts.new ≡ fed counts.old line.now }
{
    let full = left(counts) == 0;
    count(counts, full, line)
}

// The same by value.
pub fn feed(tally: [u32; 53], line: &[u8]) -> Fed
    ensures { result ≡ fed tally line.now }
{
    let mut counts = tally;
    let answer = feed_line(&mut counts, line);
    Fed { answer, counts }
}
