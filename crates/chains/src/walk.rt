// The search with marks. The work words hold a mark for each type; the rows of the chain that is found go to the output.
ghost use Rattle.std.specs.Prelude.{◌≡◌, ◌<◌, set};
ghost use Rattle.table.specs.Layout.{field_count, fields_start, most_fields};
ghost use Rattle.links.specs.Fields.{chain_graph};
ghost use Rattle.chains.specs.Search.{MayWalk, Walked};

use crate::work::Mark;
use links::Links;
use table::numbers::TypeRow;

// Stores a field's row where there is room.
fn store(out: &mut [u32], at: usize, f: usize)
    requires { f < most_fields }
    ensures { out.new ≡ set out.old at f }
{
    if at < out.len() {
        out[at] = f as u32;
    }
}

// Walks the fields of type s, which is entered, to the type t. `depth` fields lead to s. Answers 0 where no chain leads to t but
// through marked types, and else how many fields lead to t; those behind the first `depth` are stored.
#[cycle(walk_fields_walk_type)]
pub fn walk_type(
    links: &Links,
    t: TypeRow,
    s: TypeRow,
    depth: usize,
    work: &mut [u32],
    out: &mut [u32],
) -> usize
    requires { MayWalk (chain_graph links.now.words.now) (field_count links.now.words.now) s.0 depth work.old }
    ensures { Walked (chain_graph links.now.words.now) t.0 s.0 (fields_start links.now.words.now s.0) depth work.old work.new out.old out.new result }
{
    walk_fields(links, t, s, links.start(s), depth, work, out)
}

// The same for the fields of s from `first` on: each type that they lead to is entered where it is not marked.
#[cycle(walk_fields_walk_type)]
fn walk_fields(
    links: &Links,
    t: TypeRow,
    s: TypeRow,
    first: usize,
    depth: usize,
    work: &mut [u32],
    out: &mut [u32],
) -> usize
    requires { MayWalk (chain_graph links.now.words.now) (field_count links.now.words.now) s.0 depth work.old }
    ensures { Walked (chain_graph links.now.words.now) t.0 s.0 first depth work.old work.new out.old out.new result }
{
    for f in first..links.end(s) {
        if let Some(u) = links.target(f) {
            if u == t {
                store(out, depth, f);
                return depth + 1;
            }
            let row = u.0 as usize;
            if work[row] == Mark::FREE.0 {
                work[row] = Mark::ENTERED.0;
                let n = walk_type(links, t, u, depth + 1, work, out);
                if n != 0 {
                    store(out, depth, f);
                    return n;
                }
            }
        }
    }
    0
}
