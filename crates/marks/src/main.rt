// Evidence for a ring of 1,024 input objects and for a ladder of 1,024: made, judged, and judged again with one word changed. All types of the
// ring lie on a closed chain, and none of the ladder does.
#![tactic(auto)]

ghost use Rattle.std.specs.Prelude.{◌≤◌};

use evidence::judged::Broken;
use evidence::row::{EvidenceColumn, marked};
use judge::check_evidence;
use producer::make_evidence;
use shapes::sound::sound_layout;
use shapes::{
    LADDER_FIELDS, LADDER_WORDS, RING_FIELDS, RING_WORDS, Shape, TEXT, TYPES, write_table,
    write_text,
};
use std::io;
use table::numbers::TypeRow;

const WORDS: usize = EvidenceColumn::COUNT * TYPES;

// How many of the first types are marked.
fn count_marked(ev: &[u32], types: usize) -> usize
    requires { types ≤ 1024 }
{
    (0..types as u32)
        .filter(|t| marked(ev, TypeRow(*t)))
        .count()
}

fn print_answer(rt: &impl Print, broken: Option<Broken>) -> io::Result<()> {
    match broken {
        None => println!(rt; " passes"),
        Some(Broken { row, rule }) => println!(rt; " row {} rule {rule}", row.0),
    }
}

// One more in a word of the evidence, where that is not NONE.
fn change(ev: &mut [u32], t: TypeRow, k: EvidenceColumn) {
    if let Some(word) = ev.get_mut(k.at(t)) {
        *word = word.saturating_add(1);
    }
}

// Makes the evidence, prints how many types it marks and the judge's answer; and the answer again with one word changed.
fn run(
    rt: &impl Print,
    label: &str,
    text: &[u8],
    words: &[u32],
    t: TypeRow,
    k: EvidenceColumn,
    work: &mut [u32],
    out: &mut [u32],
) -> io::Result<()> {
    print!(rt; "{label}")?;
    let Ok(l) = sound_layout(text, words) else {
        return println!(rt; " refused");
    };
    let need = EvidenceColumn::COUNT * l.types;
    if work.len() < need || out.len() < need {
        return println!(rt; " no room");
    }
    make_evidence(words, l, work, out);
    print!(rt; " {}", count_marked(out, l.types))?;
    print_answer(rt, check_evidence(words, l, out))?;
    change(out, t, k);
    print!(rt; "{label}")?;
    print_answer(rt, check_evidence(words, l, out))
}

fn ring(rt: &impl Print, text: &[u8], work: &mut [u32], out: &mut [u32]) -> io::Result<()> {
    let mut words = [0; RING_WORDS];
    write_table(&mut words, Shape::Ring, RING_FIELDS);
    run(
        rt,
        "ring",
        text,
        &words,
        TypeRow(700),
        EvidenceColumn::OutDistance,
        work,
        out,
    )
}

fn ladder(rt: &impl Print, text: &[u8], work: &mut [u32], out: &mut [u32]) -> io::Result<()> {
    let mut words = [0; LADDER_WORDS];
    write_table(&mut words, Shape::Ladder, LADDER_FIELDS);
    run(
        rt,
        "ladder",
        text,
        &words,
        TypeRow(701),
        EvidenceColumn::Number,
        work,
        out,
    )
}

fn main(rt: HostRuntime) -> io::Result<()> {
    let mut text = [0; TEXT];
    let mut work = [0; WORDS];
    let mut out = [0; WORDS];
    write_text(&mut text);
    ring(&rt, &text, &mut work, &mut out)?;
    ladder(&rt, &text, &mut work, &mut out)
}
