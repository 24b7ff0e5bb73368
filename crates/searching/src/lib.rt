// The search for the types that chain fields reach from a type, each entered once, nearest first.
//
// The parts of the work table are those of the crate chains. Where that has the mark of a type stands its level, the number of fields on the
// way to it, or 0 where it is not marked; where it has counts, the list of the marked types.
#![tactic(auto)]

ghost use Rattle.std.specs.Prelude.{◌<◌, ◌≤◌, length};
ghost use Rattle.table.specs.Layout.{most_types};
ghost use Rattle.links.specs.Fields.{chains_end, chain_graph};
ghost use Rattle.chains.specs.Work.{trail_at};
ghost use Rattle.searching.specs.Search.{Entering, Entered, Visited, MaySearch, Searched, Cleared};

use chains::cycle::clear;
use chains::work::Work;
use links::Links;
use table::layout::Layout;
use table::numbers::TypeRow;

// Marks and lists the type that field f leads to, where that is one and is not marked yet. n types are listed before.
fn enter(links: &Links, l: Layout, f: usize, level: u32, n: usize, work: &mut [u32]) -> usize
    requires f_lt_fields { f < l.fields }
    requires entering { Entering links.now.words.now l links.now.targets.now level work.old n }
    ensures { Entered (chain_graph links.now.words.now) f level work.old n work.new result }
{
    let Some(u) = links.target(f) else {
        return n;
    };
    let row = u.0 as usize;
    if work[row] != 0 {
        return n;
    }
    work[row] = level;
    let end = Work { types: l.types }.counts_at() + n;
    work[end] = u.0;
    n + 1
}

// The same for the chain fields of type s.
fn visit(links: &Links, l: Layout, s: TypeRow, level: u32, listed: usize, work: &mut [u32]) -> usize
    requires s_lt_types { s.0 < l.types }
    requires entering { Entering links.now.words.now l links.now.targets.now level work.old listed }
    ensures { Visited (chain_graph links.now.words.now) s.0 (chains_end links.now.words.now s.0) level work.old listed work.new result }
{
    let mut n = listed;
    for f in links.start(s)..links.end(s) {
        n = enter(links, l, f, level, n, work);
    }
    n
}

// Marks and lists the types that chain fields reach from t, and returns how many those are.
pub fn search(links: &Links, l: Layout, t: TypeRow, work: &mut [u32]) -> usize
    requires { MaySearch links.now.words.now l links.now.targets.now t.0 work.old }
    ensures searched { Searched (chain_graph links.now.words.now) t.0 work.old work.new result }
    ensures upper_bound { result ≤ l.types }
{
    let list = Work { types: l.types }.counts_at();
    let mut n = visit(links, l, t, 1, 0, work);
    let mut head = 0;
    while head < n {
        let s = work[list + head];
        let level = work[s as usize];
        n = visit(links, l, TypeRow(s), level + 1, n, work);
        head += 1;
    }
    n
}

// Sets the work words of a search to 0 again.
pub fn clear_search(types: usize, work: &mut [u32])
    requires types_le_most_types { types ≤ most_types }
    requires types_in_bounds { trail_at types ≤ length work.old }
    ensures { Cleared (trail_at types) work.old work.new }
{
    clear(work, Work { types }.trail_at());
}
