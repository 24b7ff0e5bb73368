// A ring of 1,024 input objects and a ladder of 1,024, each searched to the end: the first cycle of a type of the ring goes through all
// of it, and no type of the ladder has one, though the number of ways down the ladder has more than two hundred digits.
#![tactic(auto)]

ghost use Rattle.std.specs.Prelude.{◌*◌, ◌≤◌, ◌<◌, length};
ghost use Rattle.rows.specs.Readable.{SoundRows};
ghost use Rattle.chains.specs.Work.{work_words};

use chains::cycle::{clear, first_cycle};
use chains::work::Work;
use links::{Links, link};
use shapes::sound::sound_layout;
use shapes::{
    LADDER_FIELDS, LADDER_WORDS, RING_FIELDS, RING_WORDS, Shape, TEXT, TYPES, write_table,
    write_text,
};
use std::io;
use table::layout::Layout;
use table::numbers::TypeRow;

// How many rows, from the first, follow each other round the ring from row t on.
fn in_order(rows: &[u32], t: u32) -> usize {
    rows.iter()
        .enumerate()
        .take_while(|(n, row)| **row as usize == (t as usize + n) % TYPES)
        .count()
}

fn find(words: &[u32], l: Layout, t: TypeRow, work: &mut [u32], out: &mut [u32]) -> usize
    requires sound_rows { SoundRows words.now l }
    requires t_lt_types { t.0 < l.types }
    requires types_in_bounds { work_words * l.types ≤ length work.old }
{
    let mut targets = [0; 8192];
    link(words, l, &mut targets);
    clear(work, Work { types: l.types }.size());
    let links = Links {
        words,
        targets: &targets,
    };
    first_cycle(&links, t, work, out)
}

// Prints the count of type t, and how many rows of its first cycle are those of the ring from t on.
fn search(
    rt: &impl Print,
    label: &str,
    text: &[u8],
    words: &[u32],
    t: u32,
    work: &mut [u32],
    out: &mut [u32],
) -> io::Result<()> {
    print!(rt; "{label}")?;
    let Ok(l) = sound_layout(text, words) else {
        return println!(rt; " refused");
    };
    let room = Work { types: l.types }.size();
    if t as usize >= l.types {
        return println!(rt; " no type");
    }
    if work.len() < room {
        return println!(rt; " no room");
    }
    let n = find(words, l, TypeRow(t), work, out);
    print!(rt; " {n}")?;
    if n <= out.len() {
        print!(rt; " {}", in_order(&out[..n], t))?;
    }
    println!(rt)
}

fn ring(rt: &impl Print, text: &[u8], work: &mut [u32], out: &mut [u32]) -> io::Result<()> {
    let mut words = [0; RING_WORDS];
    write_table(&mut words, Shape::Ring, RING_FIELDS);
    search(rt, "ring", text, &words, 0, work, out)?;
    search(rt, "ring", text, &words, 1000, work, out)
}

fn ladder(rt: &impl Print, text: &[u8], work: &mut [u32], out: &mut [u32]) -> io::Result<()> {
    let mut words = [0; LADDER_WORDS];
    write_table(&mut words, Shape::Ladder, LADDER_FIELDS);
    search(rt, "ladder", text, &words, 0, work, out)?;
    search(rt, "ladder", text, &words, 1022, work, out)
}

fn main(rt: HostRuntime) -> io::Result<()> {
    let mut text = [0; TEXT];
    let mut work = [0; Work::WORDS * TYPES];
    let mut out = [0; TYPES];
    write_text(&mut text);
    ring(&rt, &text, &mut work, &mut out)?;
    ladder(&rt, &text, &mut work, &mut out)
}
