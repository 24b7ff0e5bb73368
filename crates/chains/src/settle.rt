// The types that lead to no closed chain, found in one walk through all fields, so that no search need enter them.
//
// A type is settled where every type that its chain fields lead to is settled before it. So it leads to settled types only, and no
// closed chain runs through it: one would run through a type that was settled before. What is settled is right in whatever order types are
// tried; the walk tries each when all that it leads to have been tried, so that one walk settles all that can be. It goes deep by a trail in
// the work words and not by calls: for each type that it entered, the next field to look at (where the counts will stand) and the type that it came from.
ghost use Rattle.std.specs.Prelude.{◌≡◌, true, ◌*◌, ◌≤◌, ◌<◌, length};
ghost use Rattle.table.specs.Layout.{type_count, field_count};
ghost use Rattle.links.specs.Fields.{chain_graph, chains_end};
ghost use Rattle.chains.specs.Work.{work_words, mark_of, free_mark};
ghost use Rattle.chains.specs.Answer.{Settled};
ghost use Rattle.chains.specs.Settle.{Walking, Settling, LedTo, AllSettled};

use crate::cycle::forget;
use crate::work::{Mark, Work};
use links::Links;
use table::layout::{Layout, types_in};
use table::numbers::TypeRow;

// Every chain field of s leads to a settled type.
fn leads_to_settled(links: &Links, s: TypeRow, work: &[u32]) -> bool
    requires s_bound { s.0 < type_count links.now.words.now }
    requires words_in_bounds { type_count links.now.words.now ≤ length work.now }
    ensures { result ≡ true → LedTo (chain_graph links.now.words.now) work.now s.0 (chains_end links.now.words.now s.0) }
{
    for f in links.start(s)..links.end(s) {
        if let Some(u) = links.target(f) {
            let row = u.0 as usize;
            if work[row] != Mark::SETTLED.0 {
                return false;
            }
        }
    }
    true
}

// Settles type s if it can be.
fn settle_type(links: &Links, s: TypeRow, work: &mut [u32])
    requires s_bound { s.0 < type_count links.now.words.now }
    requires walking { Walking (chain_graph links.now.words.now) work.old }
    ensures { Settling (chain_graph links.now.words.now) work.old work.new }
{
    if leads_to_settled(links, s, work) {
        let row = s.0 as usize;
        work[row] = Mark::SETTLED.0;
    }
}

// Enters type u, from the type that the trail leads back to.
fn enter(links: &Links, u: TypeRow, from: TypeRow, work: &mut [u32])
    requires u_bound { (u.0 < type_count links.now.words.now) × (mark_of work.old u.0 ≡ free_mark) }
    requires walking { Walking (chain_graph links.now.words.now) work.old }
    ensures { Settling (chain_graph links.now.words.now) work.old work.new }
{
    let row = u.0 as usize;
    let parts = Work {
        types: types_in(links.words),
    };
    work[row] = Mark::ENTERED.0;
    let next = parts.counts_at() + row;
    work[next] = links.start(u) as u32;
    let back = parts.trail_at() + row;
    work[back] = from.0;
}

// Enters the type that field f of s leads to, where it leads to one that is not entered yet. Answers the type that the walk then stands on.
fn follow(links: &Links, s: TypeRow, f: usize, work: &mut [u32]) -> TypeRow
    requires f_bound { f < field_count links.now.words.now }
    requires walking { Walking (chain_graph links.now.words.now) work.old }
    ensures { Settling (chain_graph links.now.words.now) work.old work.new }
{
    let Some(u) = links.target(f) else {
        return s;
    };
    let row = u.0 as usize;
    if work[row] != Mark::FREE.0 {
        return s;
    }
    enter(links, u, s, work);
    u
}

// A step of the walk, which stands on s: on by the next field; or, with none left, back, and s is settled if it can be. Answers the type that the walk then
// stands on, or NONE where it began at s.
#[tactic(auto, using(crate::proofs::Shape::shaped))]
fn step(links: &Links, s: TypeRow, work: &mut [u32]) -> TypeRow
    requires s_bound { s.0 < type_count links.now.words.now }
    requires walking { Walking (chain_graph links.now.words.now) work.old }
    ensures { Settling (chain_graph links.now.words.now) work.old work.new }
{
    let row = s.0 as usize;
    let parts = Work {
        types: types_in(links.words),
    };
    let next = parts.counts_at() + row;
    let f = work[next] as usize;
    if f < links.end(s) {
        work[next] += 1;
        return follow(links, s, f, work);
    }
    settle_type(links, s, work);
    let back = parts.trail_at() + row;
    TypeRow(work[back])
}

// Walks from t through all that it leads to, each type entered once. A step looks at a field or leaves a type, so there are no more than the fields and
// the types together.
fn settle_from(links: &Links, t: TypeRow, work: &mut [u32])
    requires t_bound { (t.0 < type_count links.now.words.now) × (mark_of work.old t.0 ≡ free_mark) }
    requires walking { Walking (chain_graph links.now.words.now) work.old }
    ensures { Settling (chain_graph links.now.words.now) work.old work.new }
{
    let types = types_in(links.words);
    enter(links, t, TypeRow::NONE, work);
    let mut s = t;
    for _ in 0..Layout::MOST_FIELDS + types {
        if types <= s.index() {
            return;
        }
        s = step(links, s, work);
    }
}

// Settles each type that can be.
pub fn settle(links: &Links, work: &mut [u32])
    requires words_in_bounds { work_words * type_count links.now.words.now ≤ length work.old }
    requires settled { Settled (chain_graph links.now.words.now) work.old }
    ensures { AllSettled (chain_graph links.now.words.now) work.old work.new }
{
    let types = types_in(links.words);
    for t in 0..types {
        if work[t] == Mark::FREE.0 {
            settle_from(links, TypeRow(t as u32), work);
        }
    }
    forget(work, types);
}
