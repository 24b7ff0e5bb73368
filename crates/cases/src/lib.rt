// Runs a file of calls with the answers that they must give, and writes how many are right.
//
// The problem: answers that were made elsewhere, by a program written from document 01 alone or by the Rust, are to be held against the
// library's, with every word of the lent memory.
// Standard input holds little-endian words. A case is ten words (call, bytes of text, words of the table, type row, words of evidence, of
// work and of output, then the number, the value and the rule of the answer), the text padded to whole words, the table, the evidence, the
// work table and the output as they are lent, and these two as they must be afterwards. A case whose call is 0 ends the file.
#![tactic(auto)]

use case::run_case;
use input::read_head;
use std::io;
use tally::Tally;

mod call;
mod case;
mod input;
mod tally;

// More than any file has.
const MOST_CASES: u32 = 1000000;

// Runs every case of standard input. What it reads and writes no contract can say.
pub fn run(rt: &(impl Input + Print)) -> io::Result<()> {
    let mut input = rt.reader();
    let mut tally = Tally::EMPTY;
    for _ in 0..MOST_CASES {
        let head = read_head(&mut input)?;
        if head.call == 0 {
            break;
        }
        run_case(&mut input, head, &mut tally)?;
    }
    tally.report(rt)
}
