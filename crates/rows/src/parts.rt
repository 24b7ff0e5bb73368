// The rows of a type, and the arguments of a field: where they start, and the part of the table that they are.
ghost use Rattle.std.specs.Prelude.{◌≡◌, ◌+◌, ◌*◌, ◌≤◌, ◌<◌, length};
ghost use Rattle.table.specs.Layout.{Inside, Laid, word_at, start_at, edges_start, members_start, values_start, fields_start, arguments_start};
ghost use Rattle.rows.specs.Parts.{run_of, edges_of, members_of, values_of, fields_of, arguments_of};
ghost use Rattle.rows.specs.Readable.{SoundRows, NamePart, FieldPart, ArgumentPart};

use table::layout::{Column, Layout, end_at, start_at};
use table::numbers::TypeRow;

// The words of the rows that belong to row i: `first` is the first column of their section, and `ends` cuts it.
fn run_of(words: &[u32], first: Column, ends: Column, i: usize) -> &[u32]
    requires inside { Inside words.now ends }
    requires i_lt_rows { i < ends.rows }
    requires i_bound { start_at words.now ends i ≤ word_at words.now ends i }
    requires i_in_bounds { first.base + first.width * word_at words.now ends i ≤ length words.now }
    ensures { result.now ≡ run_of words.now first ends i }
{
    let from = start_at(words, ends, i);
    let to = end_at(words, ends, i);
    let start = first.base + first.width * from;
    let end = first.base + first.width * to;
    &words[start..end]
}

pub fn edges_start(words: &[u32], l: Layout, t: TypeRow) -> usize
    requires laid { Laid words.now l }
    requires t_lt_types { t.0 < l.types }
    ensures { result ≡ edges_start words.now t.0 }
{
    start_at(words, l.edges_ends(), t.index())
}

pub fn edges_of(words: &[u32], l: Layout, t: TypeRow) -> &[u32]
    requires sound_rows { SoundRows words.now l }
    requires t_lt_types { t.0 < l.types }
    ensures result_value { result.now ≡ edges_of words.now t.0 }
    ensures name_part { NamePart l (edges_start words.now t.0) result.now }
{
    run_of(words, l.edge_names(), l.edges_ends(), t.index())
}

pub fn members_start(words: &[u32], l: Layout, t: TypeRow) -> usize
    requires laid { Laid words.now l }
    requires t_lt_types { t.0 < l.types }
    ensures { result ≡ members_start words.now t.0 }
{
    start_at(words, l.members_ends(), t.index())
}

pub fn members_of(words: &[u32], l: Layout, t: TypeRow) -> &[u32]
    requires sound_rows { SoundRows words.now l }
    requires t_lt_types { t.0 < l.types }
    ensures result_value { result.now ≡ members_of words.now t.0 }
    ensures name_part { NamePart l (members_start words.now t.0) result.now }
{
    run_of(words, l.member_names(), l.members_ends(), t.index())
}

pub fn values_start(words: &[u32], l: Layout, t: TypeRow) -> usize
    requires laid { Laid words.now l }
    requires t_lt_types { t.0 < l.types }
    ensures { result ≡ values_start words.now t.0 }
{
    start_at(words, l.values_ends(), t.index())
}

pub fn values_of(words: &[u32], l: Layout, t: TypeRow) -> &[u32]
    requires sound_rows { SoundRows words.now l }
    requires t_lt_types { t.0 < l.types }
    ensures result_value { result.now ≡ values_of words.now t.0 }
    ensures name_part { NamePart l (values_start words.now t.0) result.now }
{
    run_of(words, l.value_names(), l.values_ends(), t.index())
}

pub fn fields_start(words: &[u32], l: Layout, t: TypeRow) -> usize
    requires laid { Laid words.now l }
    requires t_lt_types { t.0 < l.types }
    ensures { result ≡ fields_start words.now t.0 }
{
    start_at(words, l.fields_ends(), t.index())
}

pub fn fields_of(words: &[u32], l: Layout, t: TypeRow) -> &[u32]
    requires sound_rows { SoundRows words.now l }
    requires t_lt_types { t.0 < l.types }
    ensures result_value { result.now ≡ fields_of words.now t.0 }
    ensures field_part { FieldPart l (fields_start words.now t.0) result.now }
{
    run_of(words, l.field_names(), l.fields_ends(), t.index())
}

pub fn arguments_start(words: &[u32], l: Layout, f: usize) -> usize
    requires laid { Laid words.now l }
    requires f_lt_fields { f < l.fields }
    ensures { result ≡ arguments_start words.now f }
{
    start_at(words, l.arguments_ends(), f)
}

pub fn arguments_of(words: &[u32], l: Layout, f: usize) -> &[u32]
    requires sound_rows { SoundRows words.now l }
    requires f_lt_fields { f < l.fields }
    ensures result_value { result.now ≡ arguments_of words.now f }
    ensures argument_part { ArgumentPart l (arguments_start words.now f) result.now }
{
    run_of(words, l.argument_names(), l.arguments_ends(), f)
}
