// The cases of docs/RULES.md and others, on both sides of each rule.
#![tactic(auto)]

use std::io;

fn main(rt: HostRuntime) -> io::Result<()> {
    examples::run_input(&rt)
}
