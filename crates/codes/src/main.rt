// For each of the 21 record codes, in code order, the smallest table we know whose list is one record of that code, with the Rust's own
// answer. compare/sample.py made it.
#![tactic(auto)]

use std::io;

fn main(rt: HostRuntime) -> io::Result<()> {
    cases::run(&rt)
}
