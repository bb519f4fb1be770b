// Answers each line of standard input by a line on standard output, and then says how many of them each rule accepted, refused and let through.
#![tactic(auto)]

ghost use Rattle.std.specs.Prelude.{◌<◌, ◌≤◌, length, IfOk, IfSome};
ghost use Rattle.lines.specs.Line.{line_bytes};
ghost use Rattle.stream.specs.Turn.{closing_room};

use std::io::{ErrorKind, Read, Write};
use std::process::ExitCode;
use std::{io, str};

// Says on standard error what can't be done, and why: the system's words for it, without their number.
fn fail(rt: &impl Eprint, what: &str, why: io::Error) -> ExitCode {
    let mut area = [0u8; 256];
    let mut rest = &mut area[..];
    let _ = write!(rest, "{why}");
    let left = rest.len();
    let n = area.len().saturating_sub(left);
    let said = str::from_utf8(&area[..n]).unwrap_or("");
    let words = match said.split_once(" (os error ") {
        Some((words, _)) => words,
        None => said,
    };
    let _ = eprintln!(rt; "checklines: can't {what}: {words}");
    ExitCode::FAILURE
}

// Writes, or says on standard error why it can't. Where the reader has gone, nothing is said: the status is that of a program that the signal for it ends.
fn write(rt: &(impl Print + Eprint), text: &[u8]) -> Result<(), ExitCode> {
    match rt.write_all(text) {
        Ok(()) => Ok(()),
        Err(why) => match why.kind() {
            ErrorKind::BrokenPipe => Err(ExitCode::from(141)),
            _ => Err(fail(rt, "write", why)),
        },
    }
}

// One turn: reads behind what is kept, answers, counts, and writes. How much of the window is kept for the next turn comes back, nothing once the input is
// over, or the status to end with. Where reading fails, or an answer can't be written, no counts are written.
fn turn(
    input: &mut impl Read,
    rt: &(impl Print + Eprint),
    buf: &mut [u8],
    kept: usize,
    out: &mut [u8],
    counts: &mut [u32; 53],
) -> Result<Option<usize>, ExitCode>
    requires kept_inside { kept < length buf.old }
    requires line_fits { line_bytes < length buf.old }
    requires room { closing_room ≤ length out.old }
    ensures { IfOk result (λ next. IfSome next (λ k. k < length buf.new)) }
{
    let fresh = match input.read(&mut buf[kept..]) {
        Ok(fresh) => fresh,
        Err(why) => return Err(fail(rt, "read", why)),
    };
    let done = stream::turn(buf, kept, fresh, out, counts);
    write(rt, &out[..done.put])?;
    if done.over {
        return Ok(None);
    }
    Ok(Some(done.kept))
}

// Turns until the input is over, or a turn fails. What the areas must hold stands in clauses: array types would say it too, and tie each function to
// one size.
fn answer_all(
    input: &mut impl Read,
    rt: &(impl Print + Eprint),
    buf: &mut [u8],
    out: &mut [u8],
    counts: &mut [u32; 53],
) -> Result<(), ExitCode>
    requires line_fits { line_bytes < length buf.old }
    requires room { closing_room ≤ length out.old }
{
    let mut kept = 0;
    // a count, since every loop must be proved to end
    for _ in 0..u64::MAX {
        match turn(input, rt, buf, kept, out, counts)? {
            Some(next) => kept = next,
            None => return Ok(()),
        }
    }
    Ok(())
}

fn main(rt: HostRuntime) -> ExitCode {
    let mut buf = [0u8; 65536];
    let mut out = [0u8; 65536];
    let mut counts = tally::fresh();
    let mut input = rt.stdin();
    match answer_all(&mut input, &rt, &mut buf, &mut out, &mut counts) {
        Ok(()) => ExitCode::SUCCESS,
        Err(status) => status,
    }
}
