// The oracle's answers, run again: README.md beside src/ says how the list was made.
#![tactic(auto)]

use std::io;

fn main(rt: HostRuntime) -> io::Result<()> {
    examples::run_input(&rt)
}
