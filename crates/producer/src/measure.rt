// The words that searches find: number, leader, distance and depth of a type.
ghost use Rattle.std.specs.Prelude.{◌≡◌, ◌<◌, length};
ghost use Rattle.table.specs.Layout.{type_count};
ghost use Rattle.links.specs.Fields.{chain_graph};
ghost use Rattle.chains.specs.Work.{trail_at};
ghost use Rattle.evidence.specs.declared.row.EvidenceColumn.TheVariants.{Number, Leader, OutDistance, InDepth};
ghost use Rattle.searching.specs.Search.{MaySearch, Cleared};
ghost use Rattle.producer.specs.Produced.{NumberIs, LeaderIs, WordIs, Right, LevelIs, back, FirstBack};

use evidence::row::{EvidenceWord, leader, leads, marked, number};
use links::Links;
use searching::{clear_search, search};
use table::layout::Layout;
use table::numbers::TypeRow;

// How many other types chain fields reach from t.
pub fn number_of(links: &Links, l: Layout, t: TypeRow, work: &mut [u32]) -> u32
    requires { MaySearch links.now.words.now l links.now.targets.now t.0 work.old }
    ensures number_is { NumberIs (chain_graph links.now.words.now) t.0 result }
    ensures cleared { Cleared (trail_at (type_count links.now.words.now)) work.old work.new }
{
    let n = search(links, l, t, work);
    let back = work[t.0 as usize];
    clear_search(l.types, work);
    if back == 0 {
        return n as u32;
    }
    (n - 1) as u32
}

// Type u was reached, and has the same number as t.
fn reaches_back(t: TypeRow, u: TypeRow, work: &[u32], out: &[u32]) -> bool
    requires { u.0 < length work.now }
    ensures { result ≡ back work.now out.now t.0 u.0 }
{
    (work[u.0 as usize] != 0) & (number(out, u) == number(out, t))
}

// The lowest row that was reached and has the same number as t, where t itself is one; and else NONE.
fn lowest_back(t: TypeRow, work: &[u32], out: &[u32]) -> TypeRow
    requires { t.0 < length work.now }
    ensures { FirstBack (back work.now out.now t.0) t.0 result.0 }
{
    if !reaches_back(t, t, work, out) {
        return TypeRow::NONE;
    }
    for u in 0..t.0 {
        if reaches_back(t, TypeRow(u), work, out) {
            return TypeRow(u);
        }
    }
    t
}

// The lowest row among those that t reaches and that reach t.
pub fn leader_of(links: &Links, l: Layout, t: TypeRow, work: &mut [u32], out: &[u32]) -> TypeRow
    requires may_search { MaySearch links.now.words.now l links.now.targets.now t.0 work.old }
    requires right { Right (chain_graph links.now.words.now) Number out.now }
    ensures leader_is { LeaderIs (chain_graph links.now.words.now) t.0 result.0 }
    ensures cleared { Cleared (trail_at (type_count links.now.words.now)) work.old work.new }
{
    search(links, l, t, work);
    let found = lowest_back(t, work, out);
    clear_search(l.types, work);
    found
}

// The shortest distance from s to another type u that it reaches.
fn level(links: &Links, l: Layout, s: TypeRow, u: TypeRow, work: &mut [u32]) -> u32
    requires may_search { MaySearch links.now.words.now l links.now.targets.now s.0 work.old }
    requires u_lt_types { u.0 < l.types }
    ensures level_is { LevelIs (chain_graph links.now.words.now) s.0 u.0 result }
    ensures cleared { Cleared (trail_at (type_count links.now.words.now)) work.old work.new }
{
    search(links, l, s, work);
    let found = work[u.0 as usize];
    clear_search(l.types, work);
    found
}

// The shortest distance from t to its leader.
pub fn distance_of(
    links: &Links,
    l: Layout,
    t: TypeRow,
    work: &mut [u32],
    out: &[u32],
) -> EvidenceWord
    requires may_search { MaySearch links.now.words.now l links.now.targets.now t.0 work.old }
    requires right { Right (chain_graph links.now.words.now) Leader out.now }
    ensures word_is { WordIs (chain_graph links.now.words.now) OutDistance out.now t.0 result.0 }
    ensures cleared { Cleared (trail_at (type_count links.now.words.now)) work.old work.new }
{
    if !marked(out, t) {
        return EvidenceWord::NONE;
    }
    if leads(out, t) {
        return EvidenceWord(0);
    }
    EvidenceWord(level(links, l, t, leader(out, t), work))
}

// The shortest distance to t from its leader.
pub fn depth_of(links: &Links, l: Layout, t: TypeRow, work: &mut [u32], out: &[u32]) -> EvidenceWord
    requires may_search { MaySearch links.now.words.now l links.now.targets.now t.0 work.old }
    requires right { Right (chain_graph links.now.words.now) Leader out.now }
    ensures word_is { WordIs (chain_graph links.now.words.now) InDepth out.now t.0 result.0 }
    ensures cleared { Cleared (trail_at (type_count links.now.words.now)) work.old work.new }
{
    if !marked(out, t) {
        return EvidenceWord::NONE;
    }
    if leads(out, t) {
        return EvidenceWord(0);
    }
    EvidenceWord(level(links, l, leader(out, t), t, work))
}
