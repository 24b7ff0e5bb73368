// How many fields the first cycle of each type has: what record 17 counts.
//
// The problem: a search for each type takes as many steps as there are fields, and most types lead to no closed chain.
// The idea: those are settled in one walk, and only the others are searched. What the fields lead to is looked up once for all of them, into an array of
// the call's own.
#![tactic(auto)]

ghost use Rattle.std.specs.Prelude.{◌≡◌, ◌*◌, ◌≤◌, ◌<◌, length};
ghost use Rattle.table.specs.Layout.{type_count};
ghost use Rattle.rows.specs.Readable.{SoundRows};
ghost use Rattle.links.specs.Fields.{chain_graph};
ghost use Rattle.chains.specs.Work.{work_words};
ghost use Rattle.chains.specs.Answer.{Settled, CycleCount};
ghost use Rattle.counting.specs.Counting.{Counted};

use chains::cycle::first_cycle;
use chains::settle::settle;
use chains::work::Work;
use links::{Links, link};
use table::layout::{Layout, types_in};
use table::numbers::TypeRow;

// The fields in the first cycle of a type, and 0 where it has none.
pub fn count_cycle(links: &Links, t: TypeRow, work: &mut [u32]) -> usize
    requires t_bound { t.0 < type_count links.now.words.now }
    requires settled { Settled (chain_graph links.now.words.now) work.old }
    ensures cycle_count { CycleCount (chain_graph links.now.words.now) t.0 result }
    ensures upper_bound { result ≤ type_count links.now.words.now }
    ensures work_unchanged { work.new ≡ work.old }
{
    let mut none = [0; 1];
    first_cycle(links, t, work, &mut none)
}

// The counts of all types, behind their marks.
fn fill_counts(links: &Links, work: &mut [u32])
    requires words_in_bounds { work_words * type_count links.now.words.now ≤ length work.old }
    requires settled { Settled (chain_graph links.now.words.now) work.old }
    ensures { Counted (chain_graph links.now.words.now) work.old work.new }
{
    settle(links, work);
    let types = types_in(links.words);
    let counts_at = Work { types }.counts_at();
    for t in 0..types {
        let n = count_cycle(links, TypeRow(t as u32), work);
        work[counts_at + t] = n as u32;
    }
}

// The same, where what the fields lead to is looked up first.
pub fn count_cycles(words: &[u32], l: Layout, work: &mut [u32])
    requires sound_rows { SoundRows words.now l }
    requires types_in_bounds { work_words * l.types ≤ length work.old }
    requires settled { Settled (chain_graph words.now) work.old }
    ensures { Counted (chain_graph words.now) work.old work.new }
{
    let mut targets = [0; 8192];
    link(words, l, &mut targets);
    let links = Links {
        words,
        targets: &targets,
    };
    fill_counts(&links, work);
}
