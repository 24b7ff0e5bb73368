// Refusal 5: words in their ranges, ends that rise to their counts, and rows on the kinds that may own them. Tests are joined by `&`
// and `|`: none depends on another, and all may be asked.
ghost use Rattle.std.specs.Prelude.{◌≡◌, true, ◌<◌};
ghost use Rattle.table.specs.Layout.{root_words, Laid};
ghost use Rattle.wellformed.specs.WellFormed.{root_good, roots_good, types_good, all_ends_good, fields_good, arguments_good, lists_good, words_good, sections_fit, field_fits, fields_fit, sections_all_fit, fields_all_fit, rows_good};

use columns::{all_below, ends_good, wraps_good};
use table::kinds::Kind;
use table::layout::{Layout, end_at, is_empty, start_at, word_at};
use table::numbers::{NameNo, TypeRow};

// A root is a name or NONE.
#[tactic(auto, unfolding(crate::specs::WellFormed::root_good))]
fn root_good(words: &[u32], l: Layout, op: usize) -> bool
    requires laid { Laid words.now l }
    requires op_lt_root_words { op < root_words }
    ensures { result ≡ root_good words.now l op }
{
    let name = NameNo(word_at(words, l.roots(), op));
    (name.index() < l.names) | (name == NameNo::NONE)
}

#[tactic(auto, unfolding(crate::specs::WellFormed::roots_good))]
fn roots_good(words: &[u32], l: Layout) -> bool
    requires { Laid words.now l }
    ensures { result ≡ roots_good words.now l }
{
    root_good(words, l, 0) & root_good(words, l, 1) & root_good(words, l, 2)
}

#[tactic(auto, unfolding(crate::specs::WellFormed::types_good))]
fn types_good(words: &[u32], l: Layout) -> bool
    requires { Laid words.now l }
    ensures { result ≡ types_good words.now l }
{
    all_below(words, l.type_names(), l.names)
        & all_below(words, l.type_kinds(), Kind::COUNT)
        & all_below(words, l.type_flags(), 2)
}

#[tactic(auto, unfolding(crate::specs::WellFormed::all_ends_good))]
fn all_ends_good(words: &[u32], l: Layout) -> bool
    requires { Laid words.now l }
    ensures { result ≡ all_ends_good words.now l }
{
    ends_good(words, l.edges_ends(), l.edges)
        & ends_good(words, l.fields_ends(), l.fields)
        & ends_good(words, l.members_ends(), l.members)
        & ends_good(words, l.values_ends(), l.values)
        & ends_good(words, l.arguments_ends(), l.arguments)
}

#[tactic(auto, unfolding(crate::specs::WellFormed::fields_good))]
fn fields_good(words: &[u32], l: Layout) -> bool
    requires { Laid words.now l }
    ensures { result ≡ fields_good words.now l }
{
    all_below(words, l.field_names(), l.names)
        & all_below(words, l.field_types(), l.names)
        & wraps_good(words, l.field_wraps())
        & all_below(words, l.field_defaults(), 2)
}

#[tactic(auto, unfolding(crate::specs::WellFormed::arguments_good))]
fn arguments_good(words: &[u32], l: Layout) -> bool
    requires { Laid words.now l }
    ensures { result ≡ arguments_good words.now l }
{
    all_below(words, l.argument_names(), l.names)
        & all_below(words, l.argument_types(), l.names)
        & wraps_good(words, l.argument_wraps())
        & all_below(words, l.argument_defaults(), 2)
}

#[tactic(auto, unfolding(crate::specs::WellFormed::lists_good))]
fn lists_good(words: &[u32], l: Layout) -> bool
    requires { Laid words.now l }
    ensures { result ≡ lists_good words.now l }
{
    all_below(words, l.edge_names(), l.names)
        & all_below(words, l.member_names(), l.names)
        & all_below(words, l.value_names(), l.names)
}

// All that concerns one word.
#[tactic(auto, unfolding(crate::specs::WellFormed::words_good))]
fn words_good(words: &[u32], l: Layout) -> bool
    requires { Laid words.now l }
    ensures { result ≡ words_good words.now l }
{
    types_good(words, l)
        & fields_good(words, l)
        & arguments_good(words, l)
        & lists_good(words, l)
        & roots_good(words, l)
}

// Edges on objects and interfaces alone, fields on these and input objects, members on unions, values on enums.
#[tactic(auto, unfolding(crate::specs::WellFormed::sections_fit))]
fn sections_fit(words: &[u32], l: Layout, t: TypeRow) -> bool
    requires laid { Laid words.now l }
    requires t_lt_types { t.0 < l.types }
    ensures { result ≡ sections_fit words.now l t.0 }
{
    let row = t.index();
    let k = word_at(words, l.type_kinds(), row);
    let composite = Kind::is_composite(k);
    (composite | is_empty(words, l.edges_ends(), row))
        & (composite | Kind::is_input_object(k) | is_empty(words, l.fields_ends(), row))
        & (Kind::Union.is(k) | is_empty(words, l.members_ends(), row))
        & (Kind::Enum.is(k) | is_empty(words, l.values_ends(), row))
}

// A field of a type of kind k has arguments on objects and interfaces alone, and a default of 1 on input objects alone.
#[tactic(auto, unfolding(crate::specs::WellFormed::field_fits))]
fn field_fits(words: &[u32], l: Layout, k: u32, f: usize) -> bool
    requires laid { Laid words.now l }
    requires f_lt_fields { f < l.fields }
    ensures { result ≡ field_fits words.now l k f }
{
    (Kind::is_composite(k) | is_empty(words, l.arguments_ends(), f))
        & (Kind::is_input_object(k) | (word_at(words, l.field_defaults(), f) == 0))
}

// The fields of type t.
fn fields_fit(words: &[u32], l: Layout, t: TypeRow) -> bool
    requires laid { Laid words.now l }
    requires t_lt_types { t.0 < l.types }
    requires l_value { all_ends_good words.now l ≡ true }
    ensures { result ≡ fields_fit words.now l t.0 }
{
    let row = t.index();
    let k = word_at(words, l.type_kinds(), row);
    let start = start_at(words, l.fields_ends(), row);
    let end = end_at(words, l.fields_ends(), row);
    (start..end).all(|f| field_fits(words, l, k, f))
}

fn sections_all_fit(words: &[u32], l: Layout) -> bool
    requires { Laid words.now l }
    ensures { result ≡ sections_all_fit words.now l }
{
    (0..l.types).all(|t| sections_fit(words, l, TypeRow(t as u32)))
}

fn fields_all_fit(words: &[u32], l: Layout) -> bool
    requires laid { Laid words.now l }
    requires l_value { all_ends_good words.now l ≡ true }
    ensures { result ≡ fields_all_fit words.now l }
{
    (0..l.types).all(|t| fields_fit(words, l, TypeRow(t as u32)))
}

// Ends come first: the runs that they cut are read by the tests after them.
#[tactic(auto, unfolding(crate::specs::WellFormed::rows_good))]
pub fn rows_good(words: &[u32], l: Layout) -> bool
    requires { Laid words.now l }
    ensures { result ≡ rows_good words.now l }
{
    all_ends_good(words, l)
        && (words_good(words, l) & sections_all_fit(words, l) & fields_all_fit(words, l))
}
