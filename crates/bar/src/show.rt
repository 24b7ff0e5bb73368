// What a device acts on, as numbers with the codes' names.
ghost use Rattle.std.specs.Prelude.{◌*◌, ◌≤◌, length};
ghost use Rattle.records.specs.Records.{row_words};

use crate::code_names::name_of;
use lhakvuni::refusal::Refusal;
use records::{Record, Word};
use std::{fmt, io};

const OPENED: &str = "  the board is opened";

const NOT_OPENED: &str = "  the board is not opened";

// A word of a record, and - for NONE.
#[derive(Clone, Copy)]
struct Shown(u32);

impl fmt::Display for Shown {
    fn fmt<W: fmt::Write>(&self, f: &mut fmt::Formatter<W>) -> fmt::Result {
        if Word(self.0) == Word::NONE {
            write!(f, "-")
        } else {
            write!(f, "{}", self.0)
        }
    }
}

// A row has its code and the code's name, then type, a, b and c. The board is opened if there is none.
pub(crate) fn show_records(rt: &impl Print, out: &[u32], n: usize) -> io::Result<()>
    requires { row_words * n ≤ length out.now }
{
    println!(rt; "records {n}")?;
    let (rows, _) = out.as_chunks::<{ Record::WORDS }>();
    for [code, ty, a, b, c] in &rows[..n] {
        println!(rt;
            "  {code} {} {} {} {} {}",
            name_of(*code),
            Shown(*ty),
            Shown(*a),
            Shown(*b),
            Shown(*c)
        )?;
    }
    println!(rt; "{}", if n == 0 { OPENED } else { NOT_OPENED })
}

pub(crate) fn show_refusal(rt: &impl Print, refusal: Refusal) -> io::Result<()> {
    println!(rt; "refusal {}\n{NOT_OPENED}", u32::from(refusal))
}

pub(crate) fn show_need(rt: &impl Print, need: usize) -> io::Result<()> {
    println!(rt; "refusal 10, words needed {need}\n{NOT_OPENED}")
}
