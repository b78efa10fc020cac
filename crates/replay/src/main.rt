#![tactic(auto)]
// The stored sample of the crate's answers (stdin), run again: rust/README.md says how it was made.
use std::io;

fn main(rt: HostRuntime) -> io::Result<()> {
    stored::run_all(&rt)
}
