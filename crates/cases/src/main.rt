#![tactic(auto)]
// The cases at the edges of the rules (stdin), worked out by hand: docs/CASES.md.
use std::io;

fn main(rt: HostRuntime) -> io::Result<()> {
    stored::run_all(&rt)
}
