// A case: a call over lent memory that is full of one number, and what document 01 asks of its answer and of that memory.
ghost use Rattle.std.specs.Prelude.{◌≡◌, ◌≤◌, length};
ghost use Rattle.boards.specs.Wants.{want_rows, want_table, want_call, want_short};

use crate::memory::Lent;
use chains::work::Work;
use lhakvuni::{Refusal, check_table, first_cycle, records};
use std::io;
use table::numbers::TypeRow;
use table::refusal::Malformed;

#[derive(Clone, Copy)]
pub enum Call {
    Records,
    // Of the type at a row.
    FirstCycle(TypeRow),
}

// What the table's check and the call answer, and how many words at the front of the work table are 0 afterwards.
#[derive(Clone, Copy)]
pub struct Want {
    table: Result<(), Malformed>,
    answer: Result<usize, Refusal>,
    zeros: usize,
}

impl Want {
    // So many rows of a table with so many types.
    pub fn rows(n: usize, types: usize) -> Want
        requires { types ≤ 1024 }
        ensures { result ≡ want_rows n types }
    {
        Want {
            table: Ok(()),
            answer: Ok(n),
            zeros: Work::WORDS * types,
        }
    }

    // A refusal of the table.
    pub fn table(malformed: Malformed) -> Want
        ensures { result ≡ want_table malformed }
    {
        Want {
            table: Err(malformed),
            answer: Err(Refusal::Malformed(malformed)),
            zeros: 0,
        }
    }

    // A refusal of the call alone, before the output's.
    pub fn call(refusal: Refusal) -> Want
        ensures { result ≡ want_call refusal }
    {
        Want {
            table: Ok(()),
            answer: Err(refusal),
            zeros: 0,
        }
    }

    // An output that is too short.
    pub fn short(need: usize, types: usize) -> Want
        requires { types ≤ 1024 }
        ensures { result ≡ want_short need types }
    {
        Want {
            table: Ok(()),
            answer: Err(Refusal::ShortOut(need)),
            zeros: Work::WORDS * types,
        }
    }
}

fn all(words: &[u32], number: u32) -> bool {
    words.iter().all(|word| *word == number)
}

// Whether a slice starts with these rows, and is left alone behind them.
fn left(s: &[u32], rows: &[u32], number: u32) -> bool {
    s.strip_prefix(rows).is_some_and(|rest| all(rest, number))
}

// Whether a slice starts with so many words 0, and is left alone behind them.
fn cleared(s: &[u32], zeros: usize, number: u32) -> bool {
    s.split_at_checked(zeros)
        .is_some_and(|(front, rest)| all(front, 0) & all(rest, number))
}

fn show_answer(rt: &impl Print, answer: Result<usize, Refusal>) -> io::Result<()> {
    match answer {
        Ok(n) => print!(rt; ", rows {n}"),
        Err(Refusal::ShortOut(need)) => print!(rt; ", refusal 10, words needed {need}"),
        Err(refusal) => print!(rt; ", refusal {}", u32::from(refusal)),
    }
}

// The rows are what the output must start with.
#[derive(Clone, Copy)]
pub struct Case<'a> {
    pub title: &'a str,
    pub call: Call,
    pub text: &'a [u8],
    pub words: &'a [u32],
    pub lent: Lent,
    pub want: Want,
    pub rows: &'a [u32],
}

impl Case<'_> {
    // Makes the call, with as many words as are lent.
    fn call(self, works: &mut [u32], outs: &mut [u32]) -> Result<usize, Refusal>
        requires { (self.lent.work ≤ length works.old) × (self.lent.out ≤ length outs.old) }
    {
        let work = &mut works[..self.lent.work];
        let out = &mut outs[..self.lent.out];
        match self.call {
            Call::Records => records(self.text, self.words, work, out),
            Call::FirstCycle(row) => first_cycle(self.text, self.words, row, work, out),
        }
    }

    // What a call left in the work table and the output is what the case asks for.
    fn left_right(self, work: &[u32], out: &[u32]) -> bool {
        let number = self.lent.number;
        cleared(work, self.want.zeros, number) & left(out, self.rows, number)
    }

    pub fn run(self, rt: &impl Print) -> io::Result<()> {
        let mut works = [self.lent.number; Lent::MOST_WORK];
        let mut outs = [self.lent.number; Lent::MOST_OUT];
        let verdict = check_table(self.text, self.words);
        let answer = self.call(&mut works, &mut outs);
        let answered = (verdict == self.want.table) & (answer == self.want.answer);
        let right = answered & self.left_right(&works, &outs);
        print!(rt;
            "{}: table {}",
            self.title,
            wellformed::check::number(verdict)
        )?;
        show_answer(rt, answer)?;
        println!(rt; ", {}", if right { "right" } else { "WRONG" })
    }
}
