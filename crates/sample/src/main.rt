// A fixed sample of the Rust's own answers: small tables, every record code in at least three. compare/sample.py made it.
#![tactic(auto)]

use std::io;

fn main(rt: HostRuntime) -> io::Result<()> {
    cases::run(&rt)
}
