// Why a content, a body, a number or a line is refused (docs/RULES.md, Reasons).
ghost use Rattle.std.specs.Prelude.{◌≡◌};
ghost use Rattle.answer.specs.Numbers.{reason_number};

#[derive(Clone, Copy, PartialEq, Eq, Debug)]
pub enum Reason {
    Long = 1,
    Utf8 = 2,
    Form = 3,
    Check = 4,
    Zero = 5,
    // no figure completes the body
    NoFigure = 6,
    Scheme = 7,
    Room = 8,
    Good = 9,
    Term = 10,
    Line = 11,
    // a tally that can count no further line
    Full = 12,
}

impl From<Reason> for u32 {
    ghost from_gives = { λ reason number. number ≡ reason_number reason };

    fn from(reason: Reason) -> u32 {
        reason as u32
    }
}
