// The calls with the answers that document 01 asks for, made by a program written from document 01 alone.
#![tactic(auto)]

use std::io;

fn main(rt: HostRuntime) -> io::Result<()> {
    cases::run(&rt)
}
