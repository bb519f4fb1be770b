// What is found by a check figure.
use super::words::{decimal, split_word};
use answer::Reason;
use figures::{Finding, Problem};
use forms::Fault;
use std::io;

// By the number of a rule. It is matched once, so a type for the six would only be matched again.
fn figure(rule: u32, text: &[u8]) -> Finding {
    match rule {
        40 => figures::gln(text),
        41 => figures::mod11(text),
        43 => figures::mod97_0208(text),
        47 => figures::partita_iva(text),
        49 => figures::se_orgnr(text),
        _ => figures::abn(text),
    }
}

// The reason, and what is wrong with the form.
fn show_problem(rt: &impl Print, problem: Problem) -> io::Result<()> {
    let reason = u32::from(Reason::from(problem));
    print!(rt; " {reason}")?;
    match problem {
        Problem::Unfit(Fault::Length) => rt.write_all(b" length"),
        Problem::Unfit(Fault::At(place)) => print!(rt; " at {place}"),
        _ => Ok(()),
    }
}

// The number of a rule with a check figure, and a text.
pub fn show_figure(rt: &impl Print, field: &[u8]) -> io::Result<()> {
    let (rule, text) = split_word(field);
    match figure(decimal(rule), text) {
        Ok(_) => rt.write_all(b" 0"),
        Err(problem) => show_problem(rt, problem),
    }
}
