// Words of every row, one pass after the other.
ghost use Rattle.table.specs.Layout.{type_count};
ghost use Rattle.links.specs.Fields.{chain_graph};
ghost use Rattle.chains.specs.Work.{trail_at};
ghost use Rattle.searching.specs.Search.{MaySearch, Cleared};
ghost use Rattle.producer.specs.Produced.{Filling, WordIs, AllRight, found_from, ranks, levels, Filled, Whole, PassKept};

use crate::fitting::{in_field_of, out_field_of};
use crate::measure::{depth_of, distance_of, leader_of, number_of};
use evidence::row::{EvidenceColumn, EvidenceWord};
use links::Links;
use table::layout::Layout;
use table::numbers::TypeRow;

// The word of row t, found from words of the table that are right already.
fn word_for(
    links: &Links,
    l: Layout,
    k: EvidenceColumn,
    t: TypeRow,
    work: &mut [u32],
    out: &[u32],
) -> EvidenceWord
    requires may_search { MaySearch links.now.words.now l links.now.targets.now t.0 work.old }
    requires all_right { AllRight (chain_graph links.now.words.now) (found_from k) out.now }
    ensures word_is { WordIs (chain_graph links.now.words.now) k out.now t.0 result.0 }
    ensures cleared { Cleared (trail_at (type_count links.now.words.now)) work.old work.new }
{
    match k {
        EvidenceColumn::Number => EvidenceWord(number_of(links, l, t, work)),
        EvidenceColumn::Leader => EvidenceWord(leader_of(links, l, t, work, out).0),
        EvidenceColumn::OutDistance => distance_of(links, l, t, work, out),
        EvidenceColumn::InDepth => depth_of(links, l, t, work, out),
        EvidenceColumn::OutField => out_field_of(links, l, t, out),
        EvidenceColumn::InField => in_field_of(links, l, t, out),
    }
}

// Writes the word of every row.
fn fill(links: &Links, l: Layout, k: EvidenceColumn, work: &mut [u32], out: &mut [u32])
    requires filling { Filling links.now.words.now l links.now.targets.now work.old out.old }
    requires all_right { AllRight (chain_graph links.now.words.now) (found_from k) out.old }
    ensures filled { Filled (chain_graph links.now.words.now) k (type_count links.now.words.now) out.old out.new }
    ensures cleared { Cleared (trail_at (type_count links.now.words.now)) work.old work.new }
{
    for t in 0..l.types {
        let row = TypeRow(t as u32);
        let v = word_for(links, l, k, row, work, out);
        let at = k.at(row);
        out[at] = v.0;
    }
}

// Numbers, and with them the leaders.
fn fill_leaders(links: &Links, l: Layout, work: &mut [u32], out: &mut [u32])
    requires { Filling links.now.words.now l links.now.targets.now work.old out.old }
    ensures { PassKept (type_count links.now.words.now) (AllRight (chain_graph links.now.words.now) ranks) out.old out.new work.old work.new }
{
    fill(links, l, EvidenceColumn::Number, work, out);
    fill(links, l, EvidenceColumn::Leader, work, out);
}

// With the leaders, distances and depths.
fn fill_levels(links: &Links, l: Layout, work: &mut [u32], out: &mut [u32])
    requires filling { Filling links.now.words.now l links.now.targets.now work.old out.old }
    requires all_right { AllRight (chain_graph links.now.words.now) ranks out.old }
    ensures { PassKept (type_count links.now.words.now) (AllRight (chain_graph links.now.words.now) levels) out.old out.new work.old work.new }
{
    fill(links, l, EvidenceColumn::OutDistance, work, out);
    fill(links, l, EvidenceColumn::InDepth, work, out);
}

// With all of these, the fields that fit.
fn fill_fields(links: &Links, l: Layout, work: &mut [u32], out: &mut [u32])
    requires filling { Filling links.now.words.now l links.now.targets.now work.old out.old }
    requires all_right { AllRight (chain_graph links.now.words.now) levels out.old }
    ensures { PassKept (type_count links.now.words.now) (Whole (chain_graph links.now.words.now)) out.old out.new work.old work.new }
{
    fill(links, l, EvidenceColumn::OutField, work, out);
    fill(links, l, EvidenceColumn::InField, work, out);
}

// All six words, each after those that it needs.
pub fn fill_all(links: &Links, l: Layout, work: &mut [u32], out: &mut [u32])
    requires { Filling links.now.words.now l links.now.targets.now work.old out.old }
    ensures { PassKept (type_count links.now.words.now) (Whole (chain_graph links.now.words.now)) out.old out.new work.old work.new }
{
    fill_leaders(links, l, work, out);
    fill_levels(links, l, work, out);
    fill_fields(links, l, work, out);
}
