// Runs examples: a line is a command, a space and a content; it is written again with its answer behind it.
#![tactic(auto)]

ghost use Rattle.std.specs.Prelude.{◌≡◌, ◌≤◌, length, IfOk};

mod commands;
mod escape;
mod many;
mod work;

use std::io;
use std::io::Read;

fn run_all(rt: &impl Print, s: &[u8]) -> io::Result<()> {
    for line in s.split_inclusive(|b| *b == b'\n') {
        let line = line.strip_suffix(b"\n").unwrap_or(line);
        rt.write_all(line)?;
        rt.write_all(b" =>")?;
        commands::run(rt, line)?;
        rt.write_all(b"\n")?;
    }
    Ok(())
}

// Room for all examples. The length in the promise is what lending the array asks for: without this function the check runs out of stack.
fn room() -> [u8; 524288]
    ensures { 524288 ≡ length result }
{
    [0; 524288]
}

// Reads until the area is full or the input ends; the length of what was read comes back. A while, since a step is as long as what was read.
fn read_full(input: &mut impl Read, out: &mut [u8]) -> io::Result<usize>
    ensures { IfOk result (λ n. n ≤ length out.new) }
{
    let mut n: usize = 0;
    while n < out.len() {
        let fresh = input.read(&mut out[n..])?;
        if fresh == 0 {
            return Ok(n);
        }
        n += fresh;
    }
    Ok(n)
}

// All examples of standard input.
pub fn run_input(rt: &(impl Input + Print)) -> io::Result<()> {
    let mut input = rt.reader();
    let mut buf = room();
    let n = read_full(&mut input, &mut buf)?;
    run_all(rt, &buf[..n])
}
