// The commands, by their first letter: what each calls, and how its answer is written.
use super::escape::unescape;
use super::many::{show_batch, show_numbers, show_tallied};
use super::work::show_work;
use answer::Answer;
use shown::{decimal, show_code, show_figure, show_steps, show_text, split_word};
use std::io;

fn show_answer(rt: &impl Print, a: Answer) -> io::Result<()> {
    show_numbers(rt, &a.numbers())
}

// A field: its scheme, its term and its content, parted by spaces.
fn show_check(rt: &impl Print, field: &[u8]) -> io::Result<()> {
    let (scheme, rest) = split_word(field);
    let (term, content) = split_word(rest);
    show_answer(rt, checks::check(scheme, decimal(term), content))
}

// A strict GLN: its scheme and its content.
fn show_gln(rt: &impl Print, field: &[u8]) -> io::Result<()> {
    let (scheme, content) = split_word(field);
    show_answer(rt, checks::eas_value(scheme, content))
}

// A line that is fed to a tally with one count, which stands in a cell: the cell, the count and the line, parted by spaces. Its answer, and the counts
// after it.
fn show_fed(rt: &impl Print, field: &[u8]) -> io::Result<()> {
    let (cell, rest) = split_word(field);
    let (count, line) = split_word(rest);
    let cell = (decimal(cell) % 53) as usize;
    let mut counts = tally::fresh();
    counts[cell] = decimal(count);
    let done = tally::feed(counts, line);
    show_answer(rt, done.answer)?;
    show_numbers(rt, &done.counts)
}

// Which function a command names: the letter is what the line says, and is asked once. A function of another crate is handed on in a closure: of its name alone the check does not find the contract.
fn call(rt: &impl Print, command: u8, content: &[u8]) -> io::Result<()> {
    match command {
        b'n' => show_text(rt, text::normalize_space(content)),
        b's' => show_text(rt, text::strip(content)),
        b'd' => show_steps(rt, content),
        b'c' => show_check(rt, content),
        b'f' => show_figure(rt, content),
        b'i' => show_answer(rt, checks::is_valid_iban_checksum(content)),
        b'r' => show_answer(rt, checks::is_valid_creditor_identifier(content)),
        b'g' => show_gln(rt, content),
        b'w' => show_code(rt, content),
        b'a' => show_answer(rt, lines::answer_line(content)),
        b'b' => show_batch(rt, content),
        b't' => show_tallied(rt, content),
        b'T' => show_fed(rt, content),
        b'k' => show_work(
            rt,
            content,
            |scheme, body, area| corrections::complete(scheme, body, area),
        ),
        b'l' => show_work(
            rt,
            content,
            |scheme, number, area| corrections::list(scheme, number, area),
        ),
        _ => rt.write_all(b" no such command"),
    }
}

pub(crate) fn run(rt: &impl Print, line: &[u8]) -> io::Result<()> {
    let Some(command) = line.first() else {
        return Ok(());
    };
    let (_, content) = split_word(line);
    let mut area = [0u8; 2048];
    let n = unescape(content, &mut area);
    call(rt, *command, &area[..n])
}
