// Schema tables for the programs that run the library: document 01's whole case, and tables of 1,024 input objects with their text.
//
// The ring: type i has one field, to type i + 1; the last leads back to type 0.
// The ladder: type i has two fields, to the types i + 1 and i + 2; the last but one has one, and the last has none.
#![tactic(auto)]

ghost use Rattle.std.specs.Prelude.{◌≡◌, ◌*◌, ◌≤◌, ◌<◌};
ghost use Rattle.records.specs.Records.{each};
ghost use Rattle.building.specs.Building.{Added, letters, two_letters};
ghost use Rattle.shapes.specs.Shapes.{types, fields_up_to, next_type, text, letter_names, names, type_of, field_of, table};

use building::{
    Counts, Ends, field_row, header, name_row, no_roots, one_letter, two_letters, type_row,
};
use names::wrap::Wrap;
use table::kinds::Kind;
use table::layout::Layout;
use table::numbers::NameNo;

pub mod sound;
pub mod whole_case;

pub const TYPES: usize = 1024;

// The names are those of the types, and y and z for fields.
const NAMES: usize = TYPES + 2;

pub const TEXT: usize = 2 * TYPES + 2;

const FIELDS_AT: usize = Layout::HEADER + Layout::NAME * NAMES + Layout::TYPE * TYPES;

pub const RING_FIELDS: usize = TYPES;

pub const RING_WORDS: usize = FIELDS_AT + Layout::FIELD * RING_FIELDS + Layout::ROOTS;

pub const LADDER_FIELDS: usize = 2 * TYPES - 3;

pub const LADDER_WORDS: usize = FIELDS_AT + Layout::FIELD * LADDER_FIELDS + Layout::ROOTS;

#[derive(Clone, Copy)]
pub enum Shape {
    Ring,
    Ladder,
}

impl Shape {
    // The fields of the types up to type i.
    fn fields_up_to(self, i: usize) -> usize
        requires { i < types }
        ensures value { result ≡ fields_up_to self i }
        ensures upper_bound { result < 65536 }
    {
        match self {
            Shape::Ring => i + 1,
            Shape::Ladder => (2 * i + 2).min(LADDER_FIELDS),
        }
    }

    // The type that field f leads to.
    fn next_type(self, f: usize) -> usize
        requires { f < 8192 }
        ensures value { result ≡ next_type self f }
        ensures upper_bound { result < 65536 }
    {
        match self {
            Shape::Ring => (f + 1) % TYPES,
            Shape::Ladder => f / 2 + 1 + f % 2,
        }
    }
}

// A text with two letters for each number below n.
pub fn write_letters(bytes: &mut [u8], n: usize) -> usize
    requires { n ≤ letters * letters }
    ensures { Added 0 (each two_letters n) bytes.old bytes.new result }
{
    let mut at = 0;
    for i in 0..n {
        at = two_letters(bytes, at, i);
    }
    at
}

// The names that these letters spell.
pub fn write_letter_names(words: &mut [u32], at: usize, n: usize) -> usize
    requires { n ≤ letters * letters }
    ensures { Added at (letter_names n) words.old words.new result }
{
    let mut next = at;
    for i in 0..n {
        next = name_row(words, next, (2 * i) as u32, 2);
    }
    next
}

// The names: two letters for each type, and one for each of two fields.
pub fn write_text(bytes: &mut [u8]) -> usize
    ensures { Added 0 text bytes.old bytes.new result }
{
    let at = write_letters(bytes, TYPES);
    let at = one_letter(bytes, at, b'y');
    one_letter(bytes, at, b'z')
}

fn write_names(words: &mut [u32], at: usize) -> usize
    ensures { Added at names words.old words.new result }
{
    let at = write_letter_names(words, at, TYPES);
    let at = name_row(words, at, (2 * TYPES) as u32, 1);
    name_row(words, at, (2 * TYPES + 1) as u32, 1)
}

fn write_types(words: &mut [u32], at: usize, shape: Shape) -> usize
    ensures { Added at (each (type_of shape) types) words.old words.new result }
{
    let mut next = at;
    for i in 0..TYPES {
        let ends = Ends {
            fields: shape.fields_up_to(i) as u32,
            ..Ends::ZERO
        };
        next = type_row(
            words,
            next,
            NameNo(i as u32),
            u32::from(Kind::InputObject),
            0,
            ends,
        );
    }
    next
}

// Fields y and z in turn, each non-null.
fn write_fields(words: &mut [u32], at: usize, shape: Shape, fields: usize) -> usize
    requires { fields ≤ 8192 }
    ensures { Added at (each (field_of shape) fields) words.old words.new result }
{
    let mut next = at;
    for f in 0..fields {
        let name = NameNo((TYPES + f % 2) as u32);
        let ty = NameNo(shape.next_type(f) as u32);
        next = field_row(words, next, name, ty, Wrap::REQUIRED, 0, 0);
    }
    next
}

// A table of a shape that has so many fields.
pub fn write_table(words: &mut [u32], shape: Shape, fields: usize) -> usize
    requires { fields ≤ 8192 }
    ensures { Added 0 (table shape fields) words.old words.new result }
{
    let counts = Counts {
        names: NAMES as u32,
        types: TYPES as u32,
        fields: fields as u32,
        ..Counts::ZERO
    };
    let names_at = header(words, counts);
    let types_at = write_names(words, names_at);
    let fields_at = write_types(words, types_at, shape);
    let roots_at = write_fields(words, fields_at, shape, fields);
    no_roots(words, roots_at)
}
