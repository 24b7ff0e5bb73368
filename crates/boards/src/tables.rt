// The tables of the boards, but for document 01's whole case.
ghost use Rattle.std.specs.Prelude.{◌≡◌, ◌≤◌};
ghost use Rattle.table.specs.Tables.{in_row, table_of};
ghost use Rattle.building.specs.Building.{Added};
ghost use Rattle.boards.specs.Examples.{scalar_types, scalars_table, empty_table, arguments_rows, ring_rows};

use building::{
    Counts, Ends, argument_row, field_row, header, name_row, no_roots, roots_row, type_row,
};
use names::wrap::Wrap;
use shapes::write_letter_names;
use table::kinds::Kind;
use table::layout::Layout;
use table::numbers::NameNo;

fn write_types(words: &mut [u32], at: usize, types: usize) -> usize
    requires { types ≤ 1025 }
    ensures { Added at (scalar_types types) words.old words.new result }
{
    let mut next = at;
    for i in 0..types {
        next = type_row(
            words,
            next,
            NameNo(i as u32),
            u32::from(Kind::Scalar),
            0,
            Ends::ZERO,
        );
    }
    next
}

// Scalars and nothing else.
pub fn write_scalars(words: &mut [u32], types: usize) -> usize
    requires { types ≤ 1025 }
    ensures { Added 0 (scalars_table types) words.old words.new result }
{
    let counts = Counts {
        names: types as u32,
        types: types as u32,
        ..Counts::ZERO
    };
    let names_at = header(words, counts);
    let types_at = write_letter_names(words, names_at, types);
    let roots_at = write_types(words, types_at, types);
    no_roots(words, roots_at)
}

// The words of a table with no rows.
pub const LEAST: usize = Layout::HEADER + Layout::ROOTS;

// Nothing but the counts and the roots.
pub fn no_types() -> [u32; LEAST]
    ensures { result ≡ empty_table }
{
    let mut words = [0; LEAST];
    let at = header(&mut words, Counts::ZERO);
    no_roots(&mut words, at);
    words
}

const ID: NameNo = NameNo(0);

const QUERY: NameNo = NameNo(1);

const FIELD: NameNo = NameNo(2);

const ARGUMENT: NameNo = NameNo(3);

fn write_argument_names(words: &mut [u32], at: usize) -> usize
    ensures { Added at (in_row arguments_rows.names) words.old words.new result }
{
    let at = name_row(words, at, 0, 2);
    let at = name_row(words, at, 2, 5);
    let at = name_row(words, at, 7, 1);
    name_row(words, at, 8, 1)
}

fn write_arguments(words: &mut [u32], at: usize) -> usize
    ensures { Added at (in_row arguments_rows.arguments) words.old words.new result }
{
    let at = argument_row(words, at, ARGUMENT, ID, Wrap::NULLABLE, 0);
    let at = argument_row(words, at, ARGUMENT, ID, Wrap::NULLABLE, 0);
    argument_row(words, at, ARGUMENT, ID, Wrap::NULLABLE, 0)
}

const EQUAL_ARGUMENTS: usize = Layout::HEADER
    + 4 * Layout::NAME
    + Layout::TYPE
    + Layout::FIELD
    + 3 * Layout::ARGUMENT
    + Layout::ROOTS;

// type Query { a(x: ID, x: ID, x: ID): ID }
pub fn equal_arguments() -> [u32; EQUAL_ARGUMENTS]
    ensures { result ≡ table_of arguments_rows }
{
    let mut words = [0; EQUAL_ARGUMENTS];
    let counts = Counts {
        names: 4,
        types: 1,
        fields: 1,
        arguments: 3,
        ..Counts::ZERO
    };
    let at = header(&mut words, counts);
    let at = write_argument_names(&mut words, at);
    let ends = Ends {
        fields: 1,
        ..Ends::ZERO
    };
    let at = type_row(&mut words, at, QUERY, u32::from(Kind::Object), 0, ends);
    let at = field_row(&mut words, at, FIELD, ID, Wrap::NULLABLE, 3, 0);
    let at = write_arguments(&mut words, at);
    roots_row(&mut words, at, QUERY, NameNo::NONE, NameNo::NONE);
    words
}

const A: NameNo = NameNo(0);

const B: NameNo = NameNo(1);

const S: NameNo = NameNo(2);

const FIELD_A: NameNo = NameNo(3);

const FIELD_B: NameNo = NameNo(4);

fn write_ring_names(words: &mut [u32], at: usize) -> usize
    ensures { Added at (in_row ring_rows.names) words.old words.new result }
{
    let at = name_row(words, at, 0, 1);
    let at = name_row(words, at, 1, 1);
    let at = name_row(words, at, 2, 1);
    let at = name_row(words, at, 3, 1);
    name_row(words, at, 4, 1)
}

fn write_ring_types(words: &mut [u32], at: usize) -> usize
    ensures { Added at (in_row ring_rows.types) words.old words.new result }
{
    let first = Ends {
        fields: 1,
        ..Ends::ZERO
    };
    let both = Ends {
        fields: 2,
        ..Ends::ZERO
    };
    let at = type_row(words, at, A, u32::from(Kind::InputObject), 0, first);
    let at = type_row(words, at, B, u32::from(Kind::InputObject), 0, both);
    type_row(words, at, S, u32::from(Kind::Scalar), 0, both)
}

const RING_OF_TWO: usize = Layout::HEADER
    + 5 * Layout::NAME
    + 3 * Layout::TYPE
    + 2 * Layout::FIELD
    + Layout::ROOTS;

// input A { b: B! }
// input B { a: A! }
// scalar S
pub fn ring_of_two() -> [u32; RING_OF_TWO]
    ensures { result ≡ table_of ring_rows }
{
    let mut words = [0; RING_OF_TWO];
    let counts = Counts {
        names: 5,
        types: 3,
        fields: 2,
        ..Counts::ZERO
    };
    let at = header(&mut words, counts);
    let at = write_ring_names(&mut words, at);
    let at = write_ring_types(&mut words, at);
    let at = field_row(&mut words, at, FIELD_B, B, Wrap::REQUIRED, 0, 0);
    let at = field_row(&mut words, at, FIELD_A, A, Wrap::REQUIRED, 0, 0);
    no_roots(&mut words, at);
    words
}
