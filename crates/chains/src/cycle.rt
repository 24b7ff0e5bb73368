// The first cycle of a type.
ghost use Rattle.std.specs.Prelude.{◌≡◌, ◌++◌, ◌≤◌, ◌<◌, length, drop, replicate};
ghost use Rattle.table.specs.Layout.{type_count};
ghost use Rattle.links.specs.Fields.{chain_graph};
ghost use Rattle.chains.specs.Answer.{Settled, CycleAnswered, Forgotten};

use crate::walk::walk_type;
use crate::work::Mark;
use links::Links;
use table::layout::types_in;
use table::numbers::TypeRow;

// Sets the first n words to 0. A loop, since `fill` takes 16 bytes more of the stack of the calls that clear.
pub fn clear(work: &mut [u32], n: usize)
    requires { n ≤ length work.old }
    ensures { work.new ≡ replicate n 0 ++ drop n work.old }
{
    for word in &mut work[..n] {
        *word = 0;
    }
}

// Takes the marks of a search away from the first n words, and leaves those of settled types.
pub fn forget(work: &mut [u32], n: usize)
    requires { n ≤ length work.old }
    ensures { Forgotten n work.old work.new }
{
    for mark in &mut work[..n] {
        if *mark == Mark::ENTERED.0 {
            *mark = Mark::FREE.0;
        }
    }
}

// The number of fields of the first cycle of type t, whose rows are written to out in order, as many as there is room for; 0 where
// t has no cycle. A settled type has none, and is not entered. The work words are left as they were.
pub fn first_cycle(links: &Links, t: TypeRow, work: &mut [u32], out: &mut [u32]) -> usize
    requires t_bound { t.0 < type_count links.now.words.now }
    requires settled { Settled (chain_graph links.now.words.now) work.old }
    ensures cycle_answered { CycleAnswered (chain_graph links.now.words.now) t.0 out.old out.new result }
    ensures upper_bound { result ≤ type_count links.now.words.now }
    ensures work_unchanged { work.new ≡ work.old }
{
    let row = t.0 as usize;
    if work[row] != Mark::FREE.0 {
        return 0;
    }
    work[row] = Mark::ENTERED.0;
    let n = walk_type(links, t, t, 0, work, out);
    forget(work, types_in(links.words));
    n
}
