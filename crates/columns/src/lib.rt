// Tests of a whole column, or of a run of its rows: one loop each.
//
// The problem: refusals ask the same few questions of many columns: whether each word is below a limit or a good wrap, whether ends rise to
// their count, whether a name stands twice in a run. No word may be trusted before it is asked.
// The idea: a column that lies within the table is all that a question needs, so that nothing here knows a refusal. Repeats are found in one
// pass, by a bit for each name that was met: they are asked last, when each word is known to be one of at most 4,096 names.
#![tactic(auto)]

ghost use Rattle.std.specs.Prelude.{◌≡◌, ◌≤◌, ◌<◌};
ghost use Rattle.table.specs.Layout.{most_names, Inside};
ghost use Rattle.columns.specs.Columns.{below, AllBelow, wraps_good, ends_good, distinct};

use bits::{add, is_in};
use names::wrap::Wrap;
use table::layout::{Column, end_at, word_at};

// Here and in `wraps_good` a loop: with `all`, each check of a table took a twentieth longer.
pub fn all_below(words: &[u32], col: Column, limit: usize) -> bool
    requires { Inside words.now col }
    ensures { result ≡ below words.now col limit }
{
    for i in 0..col.rows {
        if limit <= end_at(words, col, i) {
            return false;
        }
    }
    true
}

pub fn wraps_good(words: &[u32], col: Column) -> bool
    requires { Inside words.now col }
    ensures { result ≡ wraps_good words.now col }
{
    for i in 0..col.rows {
        if !Wrap(word_at(words, col, i)).is_good() {
            return false;
        }
    }
    true
}

// Ends don't fall, and the last is the count of the section that they cut.
pub fn ends_good(words: &[u32], col: Column, count: usize) -> bool
    requires { Inside words.now col }
    ensures { result ≡ ends_good words.now col count }
{
    let mut start = 0;
    for i in 0..col.rows {
        let end = end_at(words, col, i);
        if end < start {
            return false;
        }
        start = end;
    }
    start == count
}

// No name stands twice in the rows from `from` up to `to`. Most runs are short, and one row needs no set.
pub fn all_distinct(words: &[u32], col: Column, from: usize, to: usize) -> bool
    requires inside { Inside words.now col }
    requires from_le_to { (from ≤ to) × (to ≤ col.rows) }
    requires all_below { AllBelow words.now col most_names }
    ensures { result ≡ distinct words.now col from to }
{
    if to - from < 2 {
        return true;
    }
    let mut seen = [0; 128];
    for i in from..to {
        let name = end_at(words, col, i);
        if is_in(&seen, name) {
            return false;
        }
        add(&mut seen, name);
    }
    true
}
