// The writing side of the table: a word of a row set, and a row of a section put in or taken out.
//
// The problem: what makes or changes a table (a reader, a repair, an edit) writes words whose places only the layout knows, and where rows come or
// go, every word behind them moves.
// The idea: a word is written where `word_at` reads it, by its column and row. A row is put in by opening room for it: the words from its place on
// stand one row further, and the room is filled by `set_word` afterwards. It is taken out by closing that room again. Each says of every word of
// the slice what it then is (specs/Writing.antt). Counts and ends are words like others, and are the caller's to set.
#![tactic(auto)]

ghost use Rattle.std.specs.Prelude.{◌≡◌, ◌+◌, ◌*◌, ◌≤◌, ◌<◌, length};
ghost use Rattle.table.specs.Layout.{Inside};
ghost use Rattle.writing.specs.Writing.{with_word, Opened, Closed};

use table::layout::Column;

// Sets the word of row i in a column.
#[tactic(auto, unfolding(crate::specs::Writing::with_word))]
pub fn set_word(words: &mut [u32], col: Column, i: usize, word: u32)
    requires inside { Inside words.old col }
    requires i_lt_rows { i < col.rows }
    ensures { words.new ≡ with_word words.old col i word }
{
    let at = col.base + col.width * i;
    words[at] = word;
}

// Moves the words from a place on up by so many; as many at the end are gone.
fn open_room(words: &mut [u32], at: usize, width: usize)
    requires { at + width ≤ length words.old }
    ensures { Opened at width words.old words.new }
{
    words.copy_within(at..words.len() - width, at + width);
}

// Moves the words behind a room of so many down into it; as many at the end stay.
fn close_room(words: &mut [u32], at: usize, width: usize)
    requires { at + width ≤ length words.old }
    ensures { Closed at width words.old words.new }
{
    words.copy_within(at + width.., at);
}

// Opens room for a row before row i of a section, whose first column is lent. The slice has that room to spare behind the table.
pub fn open_row(words: &mut [u32], first: Column, i: usize)
    requires { first.base + first.width * i + first.width ≤ length words.old }
    ensures { Opened (first.base + first.width * i) first.width words.old words.new }
{
    open_room(words, first.base + first.width * i, first.width);
}

// Takes row i of a section out.
pub fn close_row(words: &mut [u32], first: Column, i: usize)
    requires { first.base + first.width * i + first.width ≤ length words.old }
    ensures { Closed (first.base + first.width * i) first.width words.old words.new }
{
    close_room(words, first.base + first.width * i, first.width);
}
