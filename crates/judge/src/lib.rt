// The judge of evidence.
//
// A service that we don't trust hands over six words a type, and with them claims to know which types lie on closed chains. The
// judge looks at each row in turn, and asks the seven rules of document 01 in their order; it answers with the first row that
// breaks one, and its lowest, or that the evidence passes. What passes has the right marks (proofs/Evidence of the crate evidence), so
// nothing of how it was made has to be trusted.
//
// A rule looks at one row, its leader's row and the rows that chain fields lead to: no search, and no work memory. What every field leads to is
// looked up once, into an array of the call's own. Rule 6 asks for the type that owns a field, and goes through the types for it.
#![tactic(auto)]

ghost use Rattle.std.specs.Prelude.{◌≡◌, ◌<◌};
ghost use Rattle.rows.specs.Readable.{SoundRows};
ghost use Rattle.links.specs.Fields.{is_input_object, chain_graph};
ghost use Rattle.evidence.specs.Rules.{lowest};
ghost use Rattle.evidence.specs.Judged.{judged_of, rule_broken};

use crate::rule::{rule1, rule2, rule3, rule4, rule5, rule6, rule7};
use evidence::judged::Broken;
use links::{Links, link};
use table::layout::Layout;
use table::numbers::TypeRow;

mod rule;

// The lowest rule that row t breaks, if it breaks one.
#[tactic(auto, unfolding(evidence::specs::Rules::lowest))]
fn lowest(links: &Links, l: Layout, ev: &[u32], t: TypeRow) -> Option<u32>
    requires sound_rows { SoundRows links.now.words.now l }
    requires t_lt_types { t.0 < l.types }
    ensures { result ≡ rule_broken (lowest (chain_graph links.now.words.now) (is_input_object links.now.words.now) ev.now t.0) }
{
    if !rule1(l.types, ev, t) {
        return Some(1);
    }
    if !rule2(ev, t) {
        return Some(2);
    }
    if !rule3(links.words, l, ev, t) {
        return Some(3);
    }
    if !rule4(ev, t) {
        return Some(4);
    }
    if !rule5(links, ev, t) {
        return Some(5);
    }
    if !rule6(links, ev, t) {
        return Some(6);
    }
    (!rule7(links, ev, t)).then_some(7)
}

// None where it passes, or the first type row that breaks a rule, with its lowest rule.
fn judge_rows(links: &Links, l: Layout, ev: &[u32]) -> Option<Broken>
    requires { SoundRows links.now.words.now l }
    ensures { result ≡ judged_of links.now.words.now ev.now }
{
    for t in 0..l.types {
        let row = TypeRow(t as u32);
        if let Some(rule) = lowest(links, l, ev, row) {
            return Some(Broken { row, rule });
        }
    }
    None
}

// The same, where what the fields lead to is looked up first.
pub fn check_evidence(words: &[u32], l: Layout, ev: &[u32]) -> Option<Broken>
    requires { SoundRows words.now l }
    ensures { result ≡ judged_of words.now ev.now }
{
    let mut targets = [0; 8192];
    link(words, l, &mut targets);
    let links = Links {
        words,
        targets: &targets,
    };
    judge_rows(&links, l, ev)
}
