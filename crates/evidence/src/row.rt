// The six words of a type's evidence.
ghost use Rattle.std.specs.Prelude.{◌≡◌, ◌+◌, ◌*◌, ◌<◌, eqb};
ghost use Rattle.table.specs.Layout.{none};
ghost use Rattle.evidence.specs.Words.{evidence_words, place_of, word_of, number, leader, out_field, out_distance, in_field, in_depth, marked, leads};

use table::layout::Layout;
use table::numbers::TypeRow;

// Which of the six, in the order in which they stand in a row.
#[derive(Clone, Copy, PartialEq, Eq)]
pub enum EvidenceColumn {
    Number,
    Leader,
    OutField,
    OutDistance,
    InField,
    InDepth,
}

impl EvidenceColumn {
    // How many there are in a row.
    pub const COUNT: usize = 6;

    // Where the word of type t stands in a table of evidence.
    pub fn at(self, t: TypeRow) -> usize
        ensures { result ≡ evidence_words * t.0 + place_of self }
    {
        EvidenceColumn::COUNT * t.index() + self as usize
    }
}

// A word of evidence; NONE stands in the last five of a type that is not marked.
#[derive(Clone, Copy, PartialEq, Eq)]
pub struct EvidenceWord(pub u32);

impl EvidenceWord {
    pub const NONE: EvidenceWord = EvidenceWord(Layout::NONE);
}

// A word of row t, and 0 past the end.
fn word_of(ev: &[u32], t: TypeRow, k: EvidenceColumn) -> EvidenceWord
    ensures { result.0 ≡ word_of ev.now t.0 k }
{
    EvidenceWord(ev.get(k.at(t)).copied().unwrap_or(0))
}

// The word of row t is NONE.
pub fn none_at(ev: &[u32], t: TypeRow, k: EvidenceColumn) -> bool
    ensures { result ≡ eqb (word_of ev.now t.0 k) none }
{
    word_of(ev, t, k) == EvidenceWord::NONE
}

pub fn number(ev: &[u32], t: TypeRow) -> usize
    ensures value { result ≡ number ev.now t.0 }
    ensures upper_bound { result < 4294967296 }
{
    word_of(ev, t, EvidenceColumn::Number).0 as usize
}

pub fn leader(ev: &[u32], t: TypeRow) -> TypeRow
    ensures { result.0 ≡ leader ev.now t.0 }
{
    TypeRow(word_of(ev, t, EvidenceColumn::Leader).0)
}

pub fn out_field(ev: &[u32], t: TypeRow) -> usize
    ensures value { result ≡ out_field ev.now t.0 }
    ensures upper_bound { result < 4294967296 }
{
    word_of(ev, t, EvidenceColumn::OutField).0 as usize
}

pub fn out_distance(ev: &[u32], t: TypeRow) -> usize
    ensures value { result ≡ out_distance ev.now t.0 }
    ensures upper_bound { result < 4294967296 }
{
    word_of(ev, t, EvidenceColumn::OutDistance).0 as usize
}

pub fn in_field(ev: &[u32], t: TypeRow) -> usize
    ensures value { result ≡ in_field ev.now t.0 }
    ensures upper_bound { result < 4294967296 }
{
    word_of(ev, t, EvidenceColumn::InField).0 as usize
}

pub fn in_depth(ev: &[u32], t: TypeRow) -> usize
    ensures value { result ≡ in_depth ev.now t.0 }
    ensures upper_bound { result < 4294967296 }
{
    word_of(ev, t, EvidenceColumn::InDepth).0 as usize
}

pub fn marked(ev: &[u32], t: TypeRow) -> bool
    ensures { result ≡ marked ev.now t.0 }
{
    !none_at(ev, t, EvidenceColumn::Leader)
}

// The row leads itself.
pub fn leads(ev: &[u32], t: TypeRow) -> bool
    ensures { result ≡ leads ev.now t.0 }
{
    leader(ev, t) == t
}
