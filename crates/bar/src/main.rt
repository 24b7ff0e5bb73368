// A meeting-room bar opens its room's whiteboard only if the schema that the tenant composed breaks no rule.
//
// The incident that this library began with is played again: the type of a composed schema has dropped the room argument that its interface
// demands. The list of records says so, and the board is not opened. The repaired schema has no record, and the board is opened. Then comes
// document 01's whole case. The work table goes from one schema to the next as the call leaves it: nobody clears it in between.
#![tactic(auto)]

mod code_names;
mod schemas;
mod show;

use lhakvuni::{Refusal, records};
use schemas::{composed, repaired};
use shapes::whole_case;
use show::{show_need, show_records, show_refusal};
use std::io;

// Checks a schema and says what there is to act on.
fn check(
    rt: &impl Print,
    title: &str,
    text: &[u8],
    words: &[u32],
    work: &mut [u32],
    out: &mut [u32],
) -> io::Result<()> {
    print!(rt; "{title}: ")?;
    match records(text, words, work, out) {
        Ok(n) => show_records(rt, out, n),
        Err(Refusal::ShortOut(need)) => show_need(rt, need),
        Err(refusal) => show_refusal(rt, refusal),
    }
}

fn main(rt: HostRuntime) -> io::Result<()> {
    let mut work = [0; 3072];
    let mut out = [0; 40];
    let text = b"BoardIDQueryWhiteboardboardroom";
    check(
        &rt,
        "the composed schema",
        text,
        &composed(),
        &mut work,
        &mut out,
    )?;
    check(
        &rt,
        "the repaired schema",
        text,
        &repaired(),
        &mut work,
        &mut out,
    )?;
    check(
        &rt,
        "the whole case",
        b"BoardIDNodeid",
        &whole_case::table(),
        &mut work,
        &mut out,
    )
}
