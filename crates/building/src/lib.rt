// Tables made from their rows, for programs that write one.
//
// The problem: a program that puts the words of a table in by hand knows the width of every row and the place of every word, and breaks when a
// row gets wider.
// The idea: a function for each kind of row, named after the constructors of crates/table/specs/Tables.antt. It puts the row's words in at a
// place and answers the place behind them, so that a table is its header, its rows and its roots, one after the other.
#![tactic(auto)]

ghost use Rattle.std.specs.Prelude.{◌≡◌, ◌∷◌, [], ◌*◌, ◌<◌, length, set};
ghost use Rattle.table.specs.Tables.{name_row, type_row, edge_row, field_row, argument_row, member_row, value_row, roots_row, no_roots};
ghost use Rattle.building.specs.Building.{counts_row, behind, Added, letters, letter, two_letters};

use names::wrap::Wrap;
use table::numbers::NameNo;

// The rows of each section.
#[derive(Clone, Copy)]
pub struct Counts {
    pub names: u32,
    pub types: u32,
    pub edges: u32,
    pub fields: u32,
    pub arguments: u32,
    pub members: u32,
    pub values: u32,
}

impl Counts {
    pub const ZERO: Counts = Counts {
        names: 0,
        types: 0,
        edges: 0,
        fields: 0,
        arguments: 0,
        members: 0,
        values: 0,
    };
}

// Where the rows of a type end, in each section that has some.
#[derive(Clone, Copy)]
pub struct Ends {
    pub edges: u32,
    pub fields: u32,
    pub members: u32,
    pub values: u32,
}

impl Ends {
    pub const ZERO: Ends = Ends {
        edges: 0,
        fields: 0,
        members: 0,
        values: 0,
    };
}

const LETTERS: usize = 52;

// A row from a place on, as much of it as there is room for. The answer is the place behind it.
fn put<T: Copy>(cells: &mut [T], at: usize, row: &[T]) -> usize
    ensures { Added at row.now cells.old cells.new result }
{
    if at >= cells.len() {
        return at;
    }
    let n = row.len().min(cells.len() - at);
    cells[at..at + n].copy_from_slice(&row[..n]);
    at + n
}

// A name of one letter.
pub fn one_letter(text: &mut [u8], at: usize, byte: u8) -> usize
    ensures { Added at (byte ∷ []) text.old text.new result }
{
    put(text, at, &[byte])
}

// The letter of a digit: letters rise as digits do.
fn letter(digit: usize) -> u8
    requires { digit < letters }
    ensures { result ≡ letter digit }
{
    if digit < 26 {
        b'A' + digit as u8
    } else {
        b'a' + (digit as u8 - 26)
    }
}

// A name for a number: two letters, its digits. Names rise as numbers do.
pub fn two_letters(text: &mut [u8], at: usize, number: usize) -> usize
    requires { number < letters * letters }
    ensures { Added at (two_letters number) text.old text.new result }
{
    put(
        text,
        at,
        &[letter(number / LETTERS), letter(number % LETTERS)],
    )
}

// The header, which stands first.
pub fn header(words: &mut [u32], c: Counts) -> usize
    ensures { Added 0 (counts_row c) words.old words.new result }
{
    put(
        words,
        0,
        &[
            c.names,
            c.types,
            c.edges,
            c.fields,
            c.arguments,
            c.members,
            c.values,
        ],
    )
}

pub fn name_row(words: &mut [u32], at: usize, start: u32, length: u32) -> usize
    ensures { Added at (name_row start length) words.old words.new result }
{
    put(words, at, &[start, length])
}

pub fn type_row(
    words: &mut [u32],
    at: usize,
    name: NameNo,
    kind: u32,
    flags: u32,
    ends: Ends,
) -> usize
    ensures { Added at (type_row name.0 kind flags ends.edges ends.fields ends.members ends.values) words.old words.new result }
{
    put(
        words,
        at,
        &[
            name.0,
            kind,
            flags,
            ends.edges,
            ends.fields,
            ends.members,
            ends.values,
        ],
    )
}

pub fn edge_row(words: &mut [u32], at: usize, interface: NameNo) -> usize
    ensures { Added at (edge_row interface.0) words.old words.new result }
{
    put(words, at, &[interface.0])
}

pub fn field_row(
    words: &mut [u32],
    at: usize,
    name: NameNo,
    ty: NameNo,
    wrap: Wrap,
    arguments_end: u32,
    default: u32,
) -> usize
    ensures { Added at (field_row name.0 ty.0 wrap.0 arguments_end default) words.old words.new result }
{
    put(words, at, &[name.0, ty.0, wrap.0, arguments_end, default])
}

pub fn argument_row(
    words: &mut [u32],
    at: usize,
    name: NameNo,
    ty: NameNo,
    wrap: Wrap,
    default: u32,
) -> usize
    ensures { Added at (argument_row name.0 ty.0 wrap.0 default) words.old words.new result }
{
    put(words, at, &[name.0, ty.0, wrap.0, default])
}

pub fn member_row(words: &mut [u32], at: usize, name: NameNo) -> usize
    ensures { Added at (member_row name.0) words.old words.new result }
{
    put(words, at, &[name.0])
}

pub fn value_row(words: &mut [u32], at: usize, name: NameNo) -> usize
    ensures { Added at (value_row name.0) words.old words.new result }
{
    put(words, at, &[name.0])
}

pub fn roots_row(
    words: &mut [u32],
    at: usize,
    query: NameNo,
    mutation: NameNo,
    subscription: NameNo,
) -> usize
    ensures { Added at (roots_row query.0 mutation.0 subscription.0) words.old words.new result }
{
    put(words, at, &[query.0, mutation.0, subscription.0])
}

pub fn no_roots(words: &mut [u32], at: usize) -> usize
    ensures { Added at no_roots words.old words.new result }
{
    roots_row(words, at, NameNo::NONE, NameNo::NONE, NameNo::NONE)
}
