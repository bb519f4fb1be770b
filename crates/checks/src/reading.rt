// From a content, read in one of three ways, to what is found in it and the answer.
ghost use Rattle.std.specs.Prelude.{◌≡◌};
ghost use Rattle.text.specs.declared.reading.Reading.TheVariants.{AsItStands, Normalised, Stripped};
ghost use Rattle.checks.specs.Reading.{found_in, answered};

use super::judge::{Judge, answer_to};
use answer::{Answer, Severity};
use figures::{Finding, Problem};
use text::Reading;

#[tactic(auto, unfolding(crate::specs::Reading::found_in))]
#[inline(always)]
fn as_it_stands<J: Judge + Copy>(judge: J, content: &[u8]) -> Finding
    ensures { result ≡ found_in AsItStands (J.finds judge) content.now }
{
    text::readable(content).map_err(Problem::Unreadable)?;
    judge.finding(content)
}

// This and the next differ in the reader that fills the area: three lines each, and two in one would be longer than both by the contract of the reader.
fn normalised<J: Judge + Copy>(judge: J, content: &[u8]) -> Finding
    ensures { result ≡ found_in Normalised (J.finds judge) content.now }
{
    let mut area = [0u8; 1024];
    let n = text::normalize_into(content, &mut area).map_err(Problem::Unreadable)?;
    judge.finding(text::first_bytes(&area, n))
}

fn stripped<J: Judge + Copy>(judge: J, content: &[u8]) -> Finding
    ensures { result ≡ found_in Stripped (J.finds judge) content.now }
{
    let mut area = [0u8; 1024];
    let n = text::strip_into(content, &mut area).map_err(Problem::Unreadable)?;
    judge.finding(text::first_bytes(&area, n))
}

// A match, since how a rule reads a content is one of its facts.
#[inline(always)]
fn found_in<J: Judge + Copy>(how: Reading, judge: J, content: &[u8]) -> Finding
    ensures { result ≡ found_in how (J.finds judge) content.now }
{
    match how {
        Reading::AsItStands => as_it_stands(judge, content),
        Reading::Normalised => normalised(judge, content),
        Reading::Stripped => stripped(judge, content),
    }
}

// The one way: how a content is read, who judges its text, and the number and the severity that the answer carries. Inlined as far as the
// readers, so that a caller holds its own way of reading alone.
#[inline(always)]
pub fn answer_by<J: Judge + Copy>(
    how: Reading,
    judge: J,
    number: u32,
    severity: Option<Severity>,
    content: &[u8],
) -> Answer
    ensures { result ≡ answered number severity (found_in how (J.finds judge) content.now) }
{
    answer_to(number, severity, found_in(how, judge, content))
}
