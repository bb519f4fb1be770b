// Answers as plain numbers, laid out as in C.
ghost use Rattle.std.specs.Prelude.{◌≡◌};
ghost use Rattle.partyid.specs.Plain.{plain_point, plain_text, plain_answer, plain_code, plain_done, plain_batch};

use answer::{Answer, Reason};
use batch::Batch;
use guard::Withdrawal;
use text::Point;

// A code point and how many bytes it takes; length 0 is the refusal.
#[repr(C)]
#[derive(Clone, Copy)]
pub struct PartyidPoint {
    pub code: u32,
    pub len: usize,
}

// The reason, and the length of the text that stands in the caller's area.
#[repr(C)]
#[derive(Clone, Copy)]
pub struct PartyidText {
    pub reason: u32,
    pub len: usize,
}

// The four numbers of an answer.
#[repr(C)]
#[derive(Clone, Copy)]
pub struct PartyidAnswer {
    pub verdict: u32,
    pub rule: u32,
    pub severity: u32,
    pub reason: u32,
}

// 0 not withdrawn, 1 withdrawn with no successor, 2 withdrawn, with the successor's four bytes.
#[repr(C)]
#[derive(Clone, Copy)]
pub struct PartyidCode {
    pub answer: u32,
    pub a: u8,
    pub b: u8,
    pub c: u8,
    pub d: u8,
}

// The reason, 0 where the work is done, and how many digits or entries were written. Not one struct with PartyidText: partyid.h has both.
#[repr(C)]
#[derive(Clone, Copy)]
pub struct PartyidDone {
    pub reason: u32,
    pub count: usize,
}

// How many lines were answered, and how many bytes of the text they are.
#[repr(C)]
#[derive(Clone, Copy)]
pub struct PartyidBatch {
    pub count: usize,
    pub used: usize,
}

impl From<Option<Point>> for PartyidPoint {
    ghost from_gives = { λ read plain. plain ≡ plain_point read };

    #[tactic(auto, unfolding(crate::specs::Plain::plain_point))]
    fn from(read: Option<Point>) -> PartyidPoint {
        match read {
            Some(Point { code, len }) => PartyidPoint { code, len },
            None => PartyidPoint { code: 0, len: 0 },
        }
    }
}

impl From<Result<usize, Reason>> for PartyidText {
    ghost from_gives = { λ kept plain. plain ≡ plain_text kept };

    #[tactic(auto, unfolding(crate::specs::Plain::plain_text))]
    fn from(kept: Result<usize, Reason>) -> PartyidText {
        match kept {
            Ok(len) => PartyidText { reason: 0, len },
            Err(why) => PartyidText {
                reason: u32::from(why),
                len: 0,
            },
        }
    }
}

impl From<Answer> for PartyidAnswer {
    ghost from_gives = { λ answer plain. plain ≡ plain_answer answer };

    #[tactic(auto, unfolding(crate::specs::Plain::plain_answer, answer::specs::Answers::answer_numbers))]
    fn from(answer: Answer) -> PartyidAnswer {
        let [verdict, rule, severity, reason] = answer.numbers();
        PartyidAnswer {
            verdict,
            rule,
            severity,
            reason,
        }
    }
}

impl From<Option<Withdrawal>> for PartyidCode {
    ghost from_gives = { λ code plain. plain ≡ plain_code code };

    #[tactic(auto, unfolding(crate::specs::Plain::plain_code))]
    fn from(code: Option<Withdrawal>) -> PartyidCode {
        let Some(withdrawal) = code else {
            return PartyidCode {
                answer: 0,
                a: 0,
                b: 0,
                c: 0,
                d: 0,
            };
        };
        match withdrawal.successor {
            Some(code) => PartyidCode {
                answer: 2,
                a: code[0],
                b: code[1],
                c: code[2],
                d: code[3],
            },
            None => PartyidCode {
                answer: 1,
                a: 0,
                b: 0,
                c: 0,
                d: 0,
            },
        }
    }
}

impl From<Result<usize, Reason>> for PartyidDone {
    ghost from_gives = { λ done plain. plain ≡ plain_done done };

    #[tactic(auto, unfolding(crate::specs::Plain::plain_done))]
    fn from(done: Result<usize, Reason>) -> PartyidDone {
        match done {
            Ok(count) => PartyidDone { reason: 0, count },
            Err(why) => PartyidDone {
                reason: u32::from(why),
                count: 0,
            },
        }
    }
}

impl From<Batch> for PartyidBatch {
    ghost from_gives = { λ done plain. plain ≡ plain_batch done };

    fn from(done: Batch) -> PartyidBatch {
        PartyidBatch {
            count: done.count,
            used: done.used,
        }
    }
}
