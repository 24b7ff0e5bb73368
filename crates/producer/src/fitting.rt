// The lowest fields that fit: with which rules 5 and 6 hold.
ghost use Rattle.std.specs.Prelude.{◌<◌};
ghost use Rattle.links.specs.Fields.{chain_graph};
ghost use Rattle.evidence.specs.declared.row.EvidenceColumn.TheVariants.{OutField, InField};
ghost use Rattle.searching.specs.Search.{Helping};
ghost use Rattle.producer.specs.Produced.{WordIs, AllRight, measures, InFrom};

use evidence::chain::{comes_in, goes_out, nearer};
use evidence::row::{EvidenceWord, leads, marked};
use links::Links;
use table::layout::Layout;
use table::numbers::TypeRow;

// The lowest field with which rule 5 holds.
pub fn out_field_of(links: &Links, l: Layout, t: TypeRow, out: &[u32]) -> EvidenceWord
    requires helping { Helping links.now.words.now l links.now.targets.now }
    requires t_lt_types { t.0 < l.types }
    requires all_right { AllRight (chain_graph links.now.words.now) measures out.now }
    ensures { WordIs (chain_graph links.now.words.now) OutField out.now t.0 result.0 }
{
    if !marked(out, t) {
        return EvidenceWord::NONE;
    }
    for f in links.start(t)..links.end(t) {
        if goes_out(links, out, t, f) {
            return EvidenceWord(f as u32);
        }
    }
    EvidenceWord::NONE
}

// The lowest field of type s with which rule 6 holds for t, or NONE.
fn in_from(links: &Links, l: Layout, t: TypeRow, s: TypeRow, out: &[u32]) -> EvidenceWord
    requires helping { Helping links.now.words.now l links.now.targets.now }
    requires s_lt_types { s.0 < l.types }
    ensures { InFrom (chain_graph links.now.words.now) out.now t.0 s.0 result.0 }
{
    if !nearer(out, t, s) {
        return EvidenceWord::NONE;
    }
    for f in links.start(s)..links.end(s) {
        if comes_in(links, out, t, f, s) {
            return EvidenceWord(f as u32);
        }
    }
    EvidenceWord::NONE
}

// The lowest field with which rule 6 holds.
pub fn in_field_of(links: &Links, l: Layout, t: TypeRow, out: &[u32]) -> EvidenceWord
    requires helping { Helping links.now.words.now l links.now.targets.now }
    requires t_lt_types { t.0 < l.types }
    requires all_right { AllRight (chain_graph links.now.words.now) measures out.now }
    ensures { WordIs (chain_graph links.now.words.now) InField out.now t.0 result.0 }
{
    if !marked(out, t) {
        return EvidenceWord::NONE;
    }
    if leads(out, t) {
        return EvidenceWord::NONE;
    }
    for s in 0..l.types {
        let f = in_from(links, l, t, TypeRow(s as u32), out);
        if f != EvidenceWord::NONE {
            return f;
        }
    }
    EvidenceWord::NONE
}
