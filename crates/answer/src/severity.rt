// How heavily a rule weighs.
ghost use Rattle.std.specs.Prelude.{◌≡◌};
ghost use Rattle.answer.specs.Numbers.{severity_number};

#[derive(Clone, Copy, PartialEq, Eq, Debug)]
pub enum Severity {
    Fatal = 1,
    Warning = 2,
}

impl From<Severity> for u32 {
    ghost from_gives = { λ severity number. number ≡ severity_number severity };

    fn from(severity: Severity) -> u32 {
        severity as u32
    }
}
