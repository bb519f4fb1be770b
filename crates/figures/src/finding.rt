// What is found in a content.
ghost use Rattle.std.specs.Prelude.{◌≡◌, Ok};
ghost use Rattle.figures.specs.declared.finding.Problem.TheVariants.{Unfit};
ghost use Rattle.figures.specs.Findings.{judged, form_only, reason_of};

use answer::Reason;
use forms::Fault;

#[derive(Clone, Copy, PartialEq, Eq, Debug)]
pub enum Passed {
    Good,
    // the rule lets the text through unread
    Through,
}

#[derive(Clone, Copy, PartialEq, Eq, Debug)]
pub enum Problem {
    // nothing but zeros, where the rule refuses that by a reason of its own
    Zero,
    // the form is met and the figure is not right
    Wrong,
    Unfit(Fault),
    // LONG or UTF8
    Unreadable(Reason),
}

pub type Finding = Result<Passed, Problem>;

impl From<Fault> for Problem {
    ghost from_gives = { λ fault problem. problem ≡ Unfit fault };

    fn from(fault: Fault) -> Problem {
        Problem::Unfit(fault)
    }
}

// The reason by which a content is refused.
impl From<Problem> for Reason {
    ghost from_gives = { λ problem reason. reason ≡ reason_of problem };

    fn from(problem: Problem) -> Reason {
        match problem {
            Problem::Zero => Reason::Zero,
            Problem::Wrong => Reason::Check,
            Problem::Unfit(_) => Reason::Form,
            Problem::Unreadable(why) => why,
        }
    }
}

// A form with no check figure.
pub fn form_only(form: Result<(), Fault>) -> Finding
    ensures { result ≡ form_only form }
{
    form?;
    Ok(Passed::Good)
}

// The finding where the form is met.
pub fn decided(figure: bool) -> Finding
    ensures { result ≡ judged (Ok tt) figure }
{
    if figure {
        Ok(Passed::Good)
    } else {
        Err(Problem::Wrong)
    }
}
