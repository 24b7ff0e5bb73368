// The producer of evidence: the six words of every type, so that the judge passes them.
//
// What to write is determined (specs/Canonical of the crate evidence): the number counts the other types that chain fields reach; the
// leader is the lowest row among those that reach each other; then come the shortest distance to the leader and depth from it, and the
// lowest fields with which rules 5 and 6 hold.
//
// One word of every row is written at a time, in an order in which each finds the words that it needs. A word takes at most one search
// through the chain fields from one type, so all of them take as many steps as there are types times fields, and a few times that. A matrix
// of what reaches what is not needed: among the types that t reaches, those with its number are those that reach it back.
//
// The search takes the parts of the work table that other searches have for marks and counts. What every field leads to is looked up once, into an array
// of the call's own.
#![tactic(auto)]

ghost use Rattle.std.specs.Prelude.{◌≡◌, ◌++◌, ◌*◌, drop, replicate};
ghost use Rattle.table.specs.Layout.{type_count};
ghost use Rattle.rows.specs.Readable.{SoundRows};
ghost use Rattle.links.specs.Fields.{chain_graph};
ghost use Rattle.evidence.specs.Words.{evidence_words};
ghost use Rattle.producer.specs.Produced.{Rooms, Made};

use crate::fill::fill_all;
use chains::cycle::clear;
use evidence::row::EvidenceColumn;
use links::{Links, link};
use table::layout::Layout;

mod fill;
mod fitting;
mod measure;

// Writes six words a type to the front of the output, and leaves as many work words 0.
pub fn make_evidence(words: &[u32], l: Layout, work: &mut [u32], out: &mut [u32])
    requires sound_rows { SoundRows words.now l }
    requires rooms { Rooms (type_count words.now) work.old out.old }
    ensures made { Made (chain_graph words.now) out.old out.new }
    ensures work_after { work.new ≡ replicate (evidence_words * type_count words.now) 0 ++ drop (evidence_words * type_count words.now) work.old }
{
    let mut targets = [0; 8192];
    link(words, l, &mut targets);
    let room = EvidenceColumn::COUNT * l.types;
    clear(work, room);
    let links = Links {
        words,
        targets: &targets,
    };
    fill_all(&links, l, work, out);
    clear(work, room);
}
