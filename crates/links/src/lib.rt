// The chain fields of a type: where its rows start and end, and the type that each leads to.
//
// The problem: a chain field leads to a type by that type's name, and a search follows each of thousands of fields again and again.
// The idea: the graph of a table is said by functions (specs/Chains.antt, specs/Fields.antt), and what each field leads to is looked up by its name once, into
// a cell for each field row; a search then reads the cell. Where a type's fields start and end is found from the header of the table, so that a search
// that goes deep hands on no layout.
#![tactic(auto)]

ghost use Rattle.std.specs.Prelude.{◌≡◌, ◌≤◌, ◌<◌, length};
ghost use Rattle.table.specs.Layout.{Laid, layout_of, type_count, field_count, fields_start, field_type, field_wrap};
ghost use Rattle.rows.specs.Types.{found_at};
ghost use Rattle.rows.specs.Readable.{SoundRows};
ghost use Rattle.rows.specs.Index.{cell_of, Indexed};
ghost use Rattle.links.specs.Fields.{is_input_object, input_object_named, chain_target, chains_end};
ghost use Rattle.links.specs.Links.{Resolved, Linked};

use names::wrap::Wrap;
use rows::index::{index_types, look_up, row_in};
use rows::types::type_kind;
use table::kinds::Kind;
use table::layout::{Layout, end_at, fields_ends_in, start_at, type_kinds_in, word_at};
use table::numbers::{NameNo, TypeRow};

// The type is an input object.
pub fn is_input_object(words: &[u32], l: Layout, t: TypeRow) -> bool
    requires laid { Laid words.now l }
    requires t_lt_types { t.0 < l.types }
    ensures { result ≡ is_input_object words.now t.0 }
{
    Kind::InputObject.is(type_kind(words, l, t))
}

// Where the fields of a type start.
pub fn chains_start(words: &[u32], t: TypeRow) -> usize
    requires laid { Laid words.now (layout_of words.now) }
    requires t_bound { t.0 < type_count words.now }
    ensures { result ≡ fields_start words.now t.0 }
{
    start_at(words, fields_ends_in(words), t.index())
}

// Where those end that may be chain fields.
#[tactic(auto, unfolding(crate::specs::Fields::chains_end, table::specs::Kinds::input_object_kind))]
pub fn chains_end(words: &[u32], t: TypeRow) -> usize
    requires laid { Laid words.now (layout_of words.now) }
    requires t_bound { t.0 < type_count words.now }
    ensures { result ≡ chains_end words.now t.0 }
{
    if Kind::InputObject.is(word_at(words, type_kinds_in(words), t.index())) {
        return end_at(words, fields_ends_in(words), t.index());
    }
    chains_start(words, t)
}

fn field_type(words: &[u32], l: Layout, f: usize) -> NameNo
    requires laid { Laid words.now l }
    requires f_lt_fields { f < l.fields }
    ensures { result.0 ≡ field_type words.now f }
{
    NameNo(word_at(words, l.field_types(), f))
}

fn field_wrap(words: &[u32], l: Layout, f: usize) -> Wrap
    requires laid { Laid words.now l }
    requires f_lt_fields { f < l.fields }
    ensures { result.0 ≡ field_wrap words.now f }
{
    Wrap(word_at(words, l.field_wraps(), f))
}

// The input object of the name.
fn input_object_named(words: &[u32], l: Layout, index: &[u16], name: NameNo) -> Option<TypeRow>
    requires { Indexed words.now l index.now }
    ensures { result ≡ found_at (input_object_named words.now name.0) l.types }
{
    let u = look_up(words, l, index, name)?;
    if is_input_object(words, l, u) {
        return Some(u);
    }
    None
}

// The type that a field leads to, where it is a chain field, looked up by its name.
fn field_target(words: &[u32], l: Layout, index: &[u16], f: usize) -> Option<TypeRow>
    requires indexed { Indexed words.now l index.now }
    requires f_lt_fields { f < l.fields }
    ensures { result ≡ found_at (chain_target words.now f) l.types }
{
    if field_wrap(words, l, f) == Wrap::REQUIRED {
        return input_object_named(words, l, index, field_type(words, l, f));
    }
    None
}

// The same as a cell: the type's row plus 1, or 0.
fn field_cell(words: &[u32], l: Layout, index: &[u16], f: usize) -> u16
    requires indexed { Indexed words.now l index.now }
    requires f_lt_fields { f < l.fields }
    ensures { result ≡ cell_of (chain_target words.now f) (type_count words.now) }
{
    let Some(u) = field_target(words, l, index, f) else {
        return 0;
    };
    (u.0 + 1) as u16
}

// Looks up once what every field leads to, so that no search does.
fn resolve(words: &[u32], l: Layout, index: &[u16], targets: &mut [u16])
    requires indexed { Indexed words.now l index.now }
    requires fields_in_bounds { l.fields ≤ length targets.old }
    ensures { Resolved words.now targets.new }
{
    for f in 0..l.fields {
        targets[f] = field_cell(words, l, index, f);
    }
}

// The same, with an index of its own.
pub fn link(words: &[u32], l: Layout, targets: &mut [u16])
    requires sound_rows { SoundRows words.now l }
    requires fields_in_bounds { l.fields ≤ length targets.old }
    ensures { Resolved words.now targets.new }
{
    let mut index = [0; 4096];
    index_types(words, l, &mut index);
    resolve(words, l, &index, targets);
}

// The type that a field leads to, where it is a chain field.
pub fn target(words: &[u32], targets: &[u16], f: usize) -> Option<TypeRow>
    requires resolved { Resolved words.now targets.now }
    requires f_bound { f < field_count words.now }
    ensures { result ≡ found_at (chain_target words.now f) (type_count words.now) }
{
    row_in(targets[f])
}

// The words of a table, and what each of its fields leads to.
#[derive(Clone, Copy)]
pub struct Links<'a> {
    pub words: &'a [u32],
    // A cell for each field, which tells the type that it leads to.
    pub targets: &'a [u16],
    ghost linked: { Linked words.now targets.now },
}

impl Links<'_> {
    // Where the fields of a type start.
    pub fn start(&self, t: TypeRow) -> usize
        requires { t.0 < type_count self.now.words.now }
        ensures { result ≡ fields_start self.now.words.now t.0 }
    {
        chains_start(self.words, t)
    }

    // Where those end that may be chain fields.
    pub fn end(&self, t: TypeRow) -> usize
        requires { t.0 < type_count self.now.words.now }
        ensures { result ≡ chains_end self.now.words.now t.0 }
    {
        chains_end(self.words, t)
    }

    // The type that a field leads to, where it is a chain field.
    pub fn target(&self, f: usize) -> Option<TypeRow>
        requires { f < field_count self.now.words.now }
        ensures { result ≡ found_at (chain_target self.now.words.now f) (type_count self.now.words.now) }
    {
        target(self.words, self.targets, f)
    }
}
