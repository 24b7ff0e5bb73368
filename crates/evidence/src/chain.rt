// The chain fields of a type, and what rules 5 and 6 ask of one.
ghost use Rattle.std.specs.Prelude.{◌≡◌, ◌<◌};
ghost use Rattle.table.specs.Layout.{type_count};
ghost use Rattle.links.specs.Fields.{chain_graph};
ghost use Rattle.evidence.specs.Rules.{goes_out, nearer, comes_in};
ghost use Rattle.evidence.specs.ChainTo.{chain_to};

use crate::row::{in_depth, leader, leads, out_distance};
use links::Links;
use table::numbers::TypeRow;

// The type that field f leads to as a chain field of t, where it is one. The field may be any number.
fn chain_to(links: &Links, t: TypeRow, f: usize) -> Option<TypeRow>
    requires { t.0 < type_count links.now.words.now }
    ensures { result ≡ chain_to (chain_graph links.now.words.now) t.0 f }
{
    if !(links.start(t)..links.end(t)).contains(&f) {
        return None;
    }
    links.target(f)
}

// Rule 5 of a field f.
pub fn goes_out(links: &Links, ev: &[u32], t: TypeRow, f: usize) -> bool
    requires { t.0 < type_count links.now.words.now }
    ensures { result ≡ goes_out (chain_graph links.now.words.now) ev.now t.0 f }
{
    let Some(u) = chain_to(links, t, f) else {
        return false;
    };
    (leader(ev, u) == leader(ev, t))
        & (leads(ev, t) | (out_distance(ev, u) + 1 == out_distance(ev, t)))
}

// Type s has the same leader as t, and depth one less.
pub fn nearer(ev: &[u32], t: TypeRow, s: TypeRow) -> bool
    ensures { result ≡ nearer ev.now t.0 s.0 }
{
    (leader(ev, s) == leader(ev, t)) & (in_depth(ev, s) + 1 == in_depth(ev, t))
}

// Rule 6 of a field f of type s. The words of the two rows are looked at first, since the field's type is in a cell of its own.
pub fn comes_in(links: &Links, ev: &[u32], t: TypeRow, f: usize, s: TypeRow) -> bool
    requires { s.0 < type_count links.now.words.now }
    ensures { result ≡ comes_in (chain_graph links.now.words.now) ev.now t.0 f s.0 }
{
    if !nearer(ev, t, s) {
        return false;
    }
    let Some(u) = chain_to(links, s, f) else {
        return false;
    };
    u == t
}
