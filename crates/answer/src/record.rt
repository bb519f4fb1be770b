// The record, and the four kinds of answer there are.
ghost use Rattle.std.specs.Prelude.{◌≡◌};
ghost use Rattle.answer.specs.Answers.{no_rule, accepted, refused, unread, answer_numbers};

use super::reason::Reason;
use super::severity::Severity;
use super::verdict::Verdict;

#[derive(Clone, Copy, PartialEq, Eq, Debug)]
pub struct Answer {
    pub verdict: Verdict,
    // as published; 0 where no rule has judged, since an answer is four numbers (docs/RULES.md, The answer)
    pub rule: u32,
    pub severity: Option<Severity>,
    pub reason: Option<Reason>,
}

impl Answer {
    #[tactic(auto, unfolding(crate::specs::Answers::answer_numbers))]
    // Its numbers, in the order in which they are written; 0 where there is no severity or reason.
    pub fn numbers(self) -> [u32; 4]
        ensures { result ≡ answer_numbers self }
    {
        [
            u32::from(self.verdict),
            self.rule,
            self.severity.map_or(0, u32::from),
            self.reason.map_or(0, u32::from),
        ]
    }
}

// A maker for each kind, and no one function of a verdict: each has a promise of its own, and no reason can be given without a refusal.
pub fn no_rule() -> Answer
    ensures { result ≡ no_rule }
{
    Answer {
        verdict: Verdict::NoRule,
        rule: 0,
        severity: None,
        reason: None,
    }
}

pub fn accepted(rule: u32, severity: Option<Severity>) -> Answer
    ensures { result ≡ accepted rule severity }
{
    Answer {
        verdict: Verdict::Accepted,
        rule,
        severity,
        reason: None,
    }
}

pub fn unread(rule: u32, severity: Option<Severity>) -> Answer
    ensures { result ≡ unread rule severity }
{
    Answer {
        verdict: Verdict::Unread,
        rule,
        severity,
        reason: None,
    }
}

pub fn refused(rule: u32, severity: Option<Severity>, reason: Reason) -> Answer
    ensures { result ≡ refused rule severity reason }
{
    Answer {
        verdict: Verdict::Refused,
        rule,
        severity,
        reason: Some(reason),
    }
}
