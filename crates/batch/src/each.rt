// The loop over lines: each is answered by a function, and the numbers of its answer are stored.
ghost use Rattle.std.specs.Fn.{CalledAt};
ghost use Rattle.std.specs.Prelude.{◌≡◌, ◌+◌, ◌≤◌, length};
ghost use Rattle.ascii.specs.Area.{Put};
ghost use Rattle.answer.specs.Answers.{answer_numbers};
ghost use Rattle.batch.specs.Batch.{numbers_each};
ghost use Rattle.batch.specs.Inner.{EachRight};

use answer::Answer;
use lines::line_len;

// How many numbers an answer has.
const NUMBERS: usize = 4;

// How many lines were answered, and how many bytes of the text they are.
#[derive(Clone, Copy)]
pub struct Batch {
    pub count: usize,
    pub used: usize,
}

// Stores the numbers of an answer from `at` on, and says where they end. Store by store: `copy_from_slice` asks each time whether the areas lie apart.
#[tactic(auto, using(crate::proofs::Batches::put_numbers))]
fn put_numbers(a: Answer, out: &mut [u32], at: usize) -> usize
    requires { at + numbers_each ≤ length out.old }
    ensures { Put numbers_each out.old at (answer_numbers a) result out.new }
{
    let [verdict, rule, severity, reason] = a.numbers();
    out[at] = verdict;
    out[at + 1] = rule;
    out[at + 2] = severity;
    out[at + 3] = reason;
    at + NUMBERS
}

// Answers the lines of s, one after the other, as long as out has room for an answer. Either may end first: a for over one counts the other by hand.
pub(crate) fn answer_each<F: FnMut(&[u8]) -> Answer>(
    s: &[u8],
    out: &mut [u32],
    answer: &mut F,
) -> Batch
    requires { F.IsAlwaysCallable answer.old }
    ensures { EachRight (CalledAt F.FnMut) answer.old answer.new s.now out.old out.new result.count result.used }
{
    let mut used = 0;
    let mut put = 0;
    while used < s.len() && NUMBERS <= out.len() - put {
        let rest = &s[used..];
        let n = line_len(rest);
        put = put_numbers(answer(&rest[..n]), out, put);
        used += (n + 1).min(rest.len());
    }
    Batch {
        count: put / NUMBERS,
        used,
    }
}
