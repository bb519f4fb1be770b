// What a check says of a content.
ghost use Rattle.std.specs.Prelude.{◌≡◌};
ghost use Rattle.answer.specs.Numbers.{verdict_number};

#[derive(Clone, Copy, PartialEq, Eq, Debug)]
pub enum Verdict {
    NoRule = 0,
    Accepted = 1,
    Refused = 2,
    // let through unread
    Unread = 3,
}

impl From<Verdict> for u32 {
    ghost from_gives = { λ verdict number. number ≡ verdict_number verdict };

    fn from(verdict: Verdict) -> u32 {
        verdict as u32
    }
}
