// The seven rules of document 01, each a test of row t.
ghost use Rattle.std.specs.Prelude.{◌≡◌, ◌<◌};
ghost use Rattle.table.specs.Layout.{type_count, field_count};
ghost use Rattle.rows.specs.Readable.{SoundRows};
ghost use Rattle.links.specs.Fields.{is_input_object, chain_graph};
ghost use Rattle.evidence.specs.Rules.{any, comes_in, falls, rule1, rule2, rule3, rule4, rule5, rule6, rule7};

use evidence::chain::{comes_in, goes_out};
use evidence::row::{
    EvidenceColumn, in_depth, in_field, leader, leads, marked, none_at, number, out_distance,
    out_field,
};
use links::{Links, is_input_object};
use table::layout::{Layout, types_in};
use table::numbers::TypeRow;

// Number below T; leader below T or NONE.
#[tactic(auto, unfolding(evidence::specs::Rules::rule1))]
pub fn rule1(types: usize, ev: &[u32], t: TypeRow) -> bool
    ensures { result ≡ rule1 ev.now t.0 types }
{
    number(ev, t) < types
        && (leader(ev, t).index() < types || none_at(ev, t, EvidenceColumn::Leader))
}

// Unmarked: the last four are NONE.
#[tactic(auto, unfolding(evidence::specs::Rules::rule2))]
pub fn rule2(ev: &[u32], t: TypeRow) -> bool
    ensures { result ≡ rule2 ev.now t.0 }
{
    marked(ev, t)
        || (none_at(ev, t, EvidenceColumn::OutField)
            && none_at(ev, t, EvidenceColumn::OutDistance)
            && none_at(ev, t, EvidenceColumn::InField)
            && none_at(ev, t, EvidenceColumn::InDepth))
}

// Marked: kind 5, and the leader's row names itself as leader.
#[tactic(auto, unfolding(evidence::specs::Rules::rule3))]
pub fn rule3(words: &[u32], l: Layout, ev: &[u32], t: TypeRow) -> bool
    requires sound_rows { SoundRows words.now l }
    requires t_lt_types { t.0 < l.types }
    ensures { result ≡ rule3 ev.now t.0 (is_input_object words.now t.0) }
{
    !marked(ev, t) || (is_input_object(words, l, t) && leads(ev, leader(ev, t)))
}

// Marked: distance is 0 exactly if it leads itself; depth likewise.
#[tactic(auto, unfolding(evidence::specs::Rules::rule4))]
pub fn rule4(ev: &[u32], t: TypeRow) -> bool
    ensures { result ≡ rule4 ev.now t.0 }
{
    let itself = leads(ev, t);
    !marked(ev, t) || ((out_distance(ev, t) == 0) == itself && (in_depth(ev, t) == 0) == itself)
}

// Marked: out field is a chain field of this type to one with the same leader; unless it leads itself, that one's distance is one less.
#[tactic(auto, unfolding(evidence::specs::Rules::rule5))]
pub fn rule5(links: &Links, ev: &[u32], t: TypeRow) -> bool
    requires { t.0 < type_count links.now.words.now }
    ensures { result ≡ rule5 (chain_graph links.now.words.now) ev.now t.0 }
{
    !marked(ev, t) || goes_out(links, ev, t, out_field(ev, t))
}

// A field f is a chain field to this type, from one with the same leader and depth one less.
fn some_comes_in(links: &Links, ev: &[u32], t: TypeRow, f: usize) -> bool
    ensures { result ≡ any (comes_in (chain_graph links.now.words.now) ev.now t.0 f) (type_count links.now.words.now) }
{
    (0..types_in(links.words)).any(|s| comes_in(links, ev, t, f, TypeRow(s as u32)))
}

// Leader: in field NONE. Other marked: in field is a chain field to this type, from one with the same leader and depth one less.
#[tactic(auto, unfolding(evidence::specs::Rules::rule6))]
pub fn rule6(links: &Links, ev: &[u32], t: TypeRow) -> bool
    ensures { result ≡ rule6 (chain_graph links.now.words.now) ev.now t.0 }
{
    if !marked(ev, t) {
        return true;
    }
    if leads(ev, t) {
        return none_at(ev, t, EvidenceColumn::InField);
    }
    some_comes_in(links, ev, t, in_field(ev, t))
}

// Where field f leads to a type, that has a number no higher, and strictly lower if this type is unmarked.
fn falls(links: &Links, ev: &[u32], t: TypeRow, f: usize) -> bool
    requires { f < field_count links.now.words.now }
    ensures { result ≡ falls (chain_graph links.now.words.now) ev.now t.0 f }
{
    let Some(u) = links.target(f) else {
        return true;
    };
    (number(ev, u) <= number(ev, t)) & (marked(ev, t) | (number(ev, u) < number(ev, t)))
}

// Each chain field of this type goes to a number no higher, and strictly lower if this type is unmarked.
pub fn rule7(links: &Links, ev: &[u32], t: TypeRow) -> bool
    requires { t.0 < type_count links.now.words.now }
    ensures { result ≡ rule7 (chain_graph links.now.words.now) ev.now t.0 }
{
    (links.start(t)..links.end(t)).all(|f| falls(links, ev, t, f))
}
