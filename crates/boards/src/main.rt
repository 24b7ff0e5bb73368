// Document 01's boards that are only run, and first cycles. A line has the number of the table's check and what the call answered, and
// then `right` if these, the output and the work table are as document 01 asks, or `WRONG`. Lent memory is full of one number before a
// call, so that what the call leaves alone and what it writes can be told apart.
#![tactic(auto)]

mod cases;
mod memory;
mod tables;

use cases::{Call, Case, Want};
use lhakvuni::Refusal;
use memory::Lent;
use records::{Record, put};
use shapes::{whole_case, write_letters};
use std::io;
use table::layout::Layout;
use table::numbers::TypeRow;
use table::refusal::Malformed;
use tables::{LEAST, equal_arguments, no_types, ring_of_two, write_scalars};

const MOST: usize = Layout::MOST_TYPES;

const MORE: usize = MOST + 1;

// The words that a scalar adds.
const SCALAR: usize = Layout::NAME + Layout::TYPE;

// The words of one record, and of two.
fn one(r: Record) -> [u32; Record::WORDS] {
    let mut rows = [0; Record::WORDS];
    put(&mut rows, r);
    rows
}

fn two(first: Record, second: Record) -> [u32; 2 * Record::WORDS] {
    let mut rows = [0; 2 * Record::WORDS];
    put(&mut rows, first);
    put(&mut rows[Record::WORDS..], second);
    rows
}

fn most_types(rt: &impl Print, text: &[u8]) -> io::Result<()> {
    let mut words = [0; LEAST + SCALAR * MOST];
    write_scalars(&mut words, MOST);
    Case {
        title: "1,024 types",
        call: Call::Records,
        text,
        words: &words,
        lent: Lent::ALL,
        want: Want::rows(1, MOST),
        rows: &one(Record::query_root_operation_type()),
    }
    .run(rt)
}

fn more_types(rt: &impl Print, text: &[u8]) -> io::Result<()> {
    let mut words = [0; LEAST + SCALAR * MORE];
    write_scalars(&mut words, MORE);
    Case {
        title: "1,025 types",
        call: Call::Records,
        text,
        words: &words,
        lent: Lent::ALL,
        want: Want::table(Malformed::AboveLimit),
        rows: &[],
    }
    .run(rt)
}

// The most types, and one more.
fn types(rt: &impl Print) -> io::Result<()> {
    let mut text = [0; 2 * MORE];
    write_letters(&mut text, MORE);
    most_types(rt, &text)?;
    more_types(rt, &text)
}

// Both repeats are told against the first.
fn arguments(rt: &impl Print) -> io::Result<()> {
    let query = TypeRow(0);
    let rows = two(
        Record::unique_input_value(query, 0, 1),
        Record::unique_input_value(query, 0, 2),
    );
    Case {
        title: "three equal arguments",
        call: Call::Records,
        text: b"IDQueryax",
        words: &equal_arguments(),
        lent: Lent::ALL,
        want: Want::rows(2, 1),
        rows: &rows,
    }
    .run(rt)
}

// Less than a header, and nothing but a header and roots.
fn least(rt: &impl Print) -> io::Result<()> {
    Case {
        title: "6 words",
        call: Call::Records,
        text: b"",
        words: &[0; 6],
        lent: Lent::ALL,
        want: Want::table(Malformed::TooFewWords),
        rows: &[],
    }
    .run(rt)?;
    Case {
        title: "no types",
        call: Call::Records,
        text: b"",
        words: &no_types(),
        lent: Lent::ALL,
        want: Want::rows(1, 0),
        rows: &one(Record::query_root_operation_type()),
    }
    .run(rt)
}

fn whole(rt: &impl Print, title: &str, lent: Lent, want: Want, rows: &[u32]) -> io::Result<()> {
    Case {
        title,
        call: Call::Records,
        text: b"BoardIDNodeid",
        words: &whole_case::table(),
        lent,
        want,
        rows,
    }
    .run(rt)
}

// The whole case with room for its two records, and lent memory full of a number.
fn whole_over(rt: &impl Print, title: &str, number: u32) -> io::Result<()> {
    let board = TypeRow(1);
    let rows = two(
        Record::query_root_operation_type(),
        Record::invalid_implementation_field_type(board, 0, 0, 1),
    );
    let lent = Lent {
        number,
        work: Lent::MOST_WORK,
        out: Lent::MOST_OUT,
    };
    whole(rt, title, lent, Want::rows(2, 2), &rows)
}

// Two records need two rows. The same call is made twice, with lent memory full of other numbers.
fn whole_cases(rt: &impl Print) -> io::Result<()> {
    let one_row = Lent {
        number: 7,
        work: Lent::MOST_WORK,
        out: Record::WORDS,
    };
    let want = Want::short(2 * Record::WORDS, 2);
    whole(rt, "an output one row short", one_row, want, &[])?;
    whole_over(rt, "the whole case over 7", 7)?;
    whole_over(rt, "the whole case over NONE", TypeRow::NONE.0)
}

fn cycle(
    rt: &impl Print,
    title: &str,
    row: u32,
    lent: Lent,
    want: Want,
    rows: &[u32],
) -> io::Result<()> {
    Case {
        title,
        call: Call::FirstCycle(TypeRow(row)),
        text: b"ABSab",
        words: &ring_of_two(),
        lent,
        want,
        rows,
    }
    .run(rt)
}

// A leads to B by field 0, and B to A by field 1. Row 2 is a scalar's, and row 3 no type's. Three types need nine words of work.
fn cycles(rt: &impl Print) -> io::Result<()> {
    let all = Lent::ALL;
    let short = Lent {
        number: 7,
        work: 8,
        out: Lent::MOST_OUT,
    };
    let no_input_object = Want::call(Refusal::NoInputObject);
    cycle(rt, "first cycle of A", 0, all, Want::rows(2, 3), &[0, 1])?;
    cycle(rt, "first cycle of B", 1, all, Want::rows(2, 3), &[1, 0])?;
    cycle(rt, "first cycle of a scalar", 2, all, no_input_object, &[])?;
    cycle(rt, "first cycle of no type", 3, all, no_input_object, &[])?;
    let want = Want::call(Refusal::ShortWork);
    cycle(rt, "work one word short", 0, short, want, &[])
}

fn main(rt: HostRuntime) -> io::Result<()> {
    types(&rt)?;
    arguments(&rt)?;
    least(&rt)?;
    whole_cases(&rt)?;
    cycles(&rt)
}
