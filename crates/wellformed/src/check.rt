// The table's refusals, in their order.
ghost use Rattle.std.specs.Prelude.{◌≡◌, ◌≤◌, length};
ghost use Rattle.table.specs.Layout.{most_text, layout_of, InRange, Laid};
ghost use Rattle.wellformed.specs.WellFormed.{in_limits, right_length, refusal_laid, refusal};
ghost use Rattle.wellformed.specs.Answers.{verdict_number, Proper};

use crate::refusal5::rows_good;
use crate::refusal6::names_distinct;
use name_section::names_right;
use table::layout::{Layout, layout_of};
use table::refusal::Malformed;

#[tactic(auto, unfolding(crate::specs::WellFormed::in_limits))]
fn in_limits(text: &[u8], l: Layout) -> bool
    ensures { result ≡ in_limits text.now l }
{
    (l.names <= Layout::MOST_NAMES)
        & (l.types <= Layout::MOST_TYPES)
        & (l.edges <= Layout::MOST_EDGES)
        & (l.fields <= Layout::MOST_FIELDS)
        & (l.arguments <= Layout::MOST_ARGUMENTS)
        & (l.members <= Layout::MOST_MEMBERS)
        & (l.values <= Layout::MOST_VALUES)
        & (text.len() <= Layout::MOST_TEXT)
}

fn right_length(words: &[u32], l: Layout) -> bool
    requires l_value { l ≡ layout_of words.now }
    requires in_range { InRange l }
    ensures { result ≡ right_length words.now l }
{
    words.len() == l.roots_at + Layout::ROOTS
}

// The refusals of names and rows, of a table that keeps its limits and has the right length.
#[tactic(auto, unfolding(crate::specs::WellFormed::refusal_laid))]
fn check_laid(text: &[u8], words: &[u32], l: Layout) -> Result<(), Malformed>
    requires laid { Laid words.now l }
    requires text_len_bound { length text.now ≤ most_text }
    ensures result_value { verdict_number result ≡ refusal_laid text.now words.now l }
    ensures proper { Proper result }
{
    if !names_right(text, words, l) {
        return Err(Malformed::BadNames);
    }
    if !rows_good(words, l) {
        return Err(Malformed::BadWord);
    }
    if !names_distinct(words, l) {
        return Err(Malformed::Twice);
    }
    Ok(())
}

// Whether a text and a table are well-formed, or the first refusal.
#[tactic(auto, unfolding(crate::specs::WellFormed::refusal))]
pub fn check_table(text: &[u8], words: &[u32]) -> Result<(), Malformed>
    ensures result_value { verdict_number result ≡ refusal text.now words.now }
    ensures proper { Proper result }
{
    if words.len() < Layout::HEADER {
        return Err(Malformed::TooFewWords);
    }
    let l = layout_of(words);
    if !in_limits(text, l) {
        return Err(Malformed::AboveLimit);
    }
    if !right_length(words, l) {
        return Err(Malformed::WrongLength);
    }
    check_laid(text, words, l)
}

// Document 01's number of a verdict.
pub fn number(verdict: Result<(), Malformed>) -> u32
    ensures { result ≡ verdict_number verdict }
{
    match verdict {
        Ok(()) => 0,
        Err(malformed) => u32::from(malformed),
    }
}
