// Refusal 6: no type name stands twice, and within one type no edge, field, member or value name does. It is asked of good rows, so that
// each word is the number of a name.
ghost use Rattle.std.specs.Prelude.{◌≡◌, true, ◌<◌};
ghost use Rattle.columns.specs.Columns.{AllBelow};
ghost use Rattle.table.specs.Layout.{most_names, Laid, Inside};
ghost use Rattle.wellformed.specs.WellFormed.{rows_good, ends_good, run_distinct, rows_distinct, rows_all_distinct, names_distinct};

use columns::all_distinct;
use table::layout::{Column, Layout, end_at, start_at};
use table::numbers::TypeRow;

// No name of type t stands twice; `ends` cuts the rows of `names` by type.
#[tactic(auto, unfolding(crate::specs::WellFormed::run_distinct))]
fn run_distinct(words: &[u32], names: Column, ends: Column, t: TypeRow) -> bool
    requires inside { Inside words.now names }
    requires inside_2 { Inside words.now ends }
    requires t_lt_rows { t.0 < ends.rows }
    requires rows_value { ends_good words.now ends names.rows ≡ true }
    requires all_below { AllBelow words.now names most_names }
    ensures { result ≡ run_distinct words.now names ends t.0 }
{
    all_distinct(
        words,
        names,
        start_at(words, ends, t.index()),
        end_at(words, ends, t.index()),
    )
}

#[tactic(auto, unfolding(crate::specs::WellFormed::rows_distinct))]
fn rows_distinct(words: &[u32], l: Layout, t: TypeRow) -> bool
    requires laid { Laid words.now l }
    requires t_lt_types { t.0 < l.types }
    requires l_value { rows_good words.now l ≡ true }
    ensures { result ≡ rows_distinct words.now l t.0 }
{
    run_distinct(words, l.edge_names(), l.edges_ends(), t)
        & run_distinct(words, l.field_names(), l.fields_ends(), t)
        & run_distinct(words, l.member_names(), l.members_ends(), t)
        & run_distinct(words, l.value_names(), l.values_ends(), t)
}

fn rows_all_distinct(words: &[u32], l: Layout) -> bool
    requires laid { Laid words.now l }
    requires l_value { rows_good words.now l ≡ true }
    ensures { result ≡ rows_all_distinct words.now l }
{
    (0..l.types).all(|t| rows_distinct(words, l, TypeRow(t as u32)))
}

#[tactic(auto, unfolding(crate::specs::WellFormed::names_distinct))]
pub fn names_distinct(words: &[u32], l: Layout) -> bool
    requires laid { Laid words.now l }
    requires l_value { rows_good words.now l ≡ true }
    ensures { result ≡ names_distinct words.now l }
{
    all_distinct(words, l.type_names(), 0, l.types) & rows_all_distinct(words, l)
}
