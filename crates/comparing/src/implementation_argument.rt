// The arguments of an interface's field against those of the own field: 11 or 12 per interface argument, then 13.
ghost use Rattle.std.specs.Prelude.{◌≡◌, ◌+◌, ◌≤◌, ◌<◌};
ghost use Rattle.records.specs.Records.{Emitted};
ghost use Rattle.rows.specs.Parts.{argument_rows};
ghost use Rattle.comparing.specs.Arguments.{same_type, implementing_arguments, demanded_argument, demanded_arguments, own_argument, own_arguments};
ghost use Rattle.comparing.specs.Bounds.{most_of_interface_field};
ghost use Rattle.lookup.specs.Cells.{ArgumentsNamed, ArgumentsHelped};
ghost use Rattle.table.specs.Layout.{most_arguments};

use lent::Table;
use lookup::arguments::{has_few, index_arguments, look_up_argument};
use records::{Record, put, put_each, used};
use rows::cells::{argument_default, argument_name, argument_rows, argument_type, argument_wrap};
use rows::parts::{arguments_of, arguments_start};
use table::numbers::TypeRow;

// A field of an interface and the own field of its name: the type, the edge's row, and the rows of the two fields.
#[derive(Clone, Copy)]
pub struct FieldPair {
    pub ty: TypeRow,
    pub edge: u32,
    pub interface_field: u32,
    pub own_field: u32,
}

// Argument types are equal.
fn has_same_type(arguments: &[u32], i: usize, others: &[u32], other: usize) -> bool
    requires { (i < argument_rows arguments.now) × (other < argument_rows others.now) }
    ensures { result ≡ same_type arguments.now i others.now other }
{
    (argument_type(arguments, i) == argument_type(others, other))
        & (argument_wrap(arguments, i) == argument_wrap(others, other))
}

// 11 for an argument of the interface's field that the own field lacks; 12 where the types differ.
fn validate_interface_argument(
    pair: FieldPair,
    first: usize,
    arguments: &[u32],
    cells: &[u16],
    interface_first: usize,
    interface_arguments: &[u32],
    i: usize,
    out: &mut [u32],
) -> usize
    requires arguments_bound { (first + argument_rows arguments.now ≤ most_arguments) × (interface_first + argument_rows interface_arguments.now ≤ most_arguments) }
    requires i_bound { i < argument_rows interface_arguments.now }
    requires arguments_helped { ArgumentsHelped arguments.now cells.now }
    ensures emitted { Emitted (demanded_argument pair first arguments.now interface_first interface_arguments.now i) out.old out.new result }
    ensures upper_bound { result ≤ 1 }
{
    let row = (interface_first + i) as u32;
    let Some(own) = look_up_argument(arguments, cells, argument_name(interface_arguments, i)) else {
        return put(
            out,
            Record::missing_interface_field_argument(pair.ty, pair.edge, pair.own_field, row),
        );
    };
    if has_same_type(interface_arguments, i, arguments, own) {
        return 0;
    }
    put(
        out,
        Record::invalid_implementation_field_argument_type(
            pair.ty,
            pair.edge,
            row,
            (first + own) as u32,
        ),
    )
}

// Each argument of the interface's field; the cells are those of the own field, or none.
fn validate_each_interface_argument(
    pair: FieldPair,
    first: usize,
    arguments: &[u32],
    cells: &[u16],
    interface_first: usize,
    interface_arguments: &[u32],
    out: &mut [u32],
) -> usize
    requires arguments_bound { (first + argument_rows arguments.now ≤ most_arguments) × (interface_first + argument_rows interface_arguments.now ≤ most_arguments) }
    requires arguments_helped { ArgumentsHelped arguments.now cells.now }
    ensures emitted { Emitted (demanded_arguments pair first arguments.now interface_first interface_arguments.now) out.old out.new result }
    ensures upper_bound { result ≤ most_arguments }
{
    put_each(
        argument_rows(interface_arguments),
        |i, out| {
            validate_interface_argument(
                pair,
                first,
                arguments,
                cells,
                interface_first,
                interface_arguments,
                i,
                out,
            )
        },
        out,
    )
}

// Each is looked for among all of the own field, so where both fields have many, the own are noted in cells first. Where one of them has
// few, a walk reads few words for each argument of the other.
fn validate_interface_arguments(
    pair: FieldPair,
    first: usize,
    arguments: &[u32],
    interface_first: usize,
    interface_arguments: &[u32],
    out: &mut [u32],
) -> usize
    requires arguments_bound { (first + argument_rows arguments.now ≤ most_arguments) × (interface_first + argument_rows interface_arguments.now ≤ most_arguments) }
    requires arguments_named { ArgumentsNamed arguments.now }
    ensures emitted { Emitted (demanded_arguments pair first arguments.now interface_first interface_arguments.now) out.old out.new result }
    ensures upper_bound { result ≤ most_arguments }
{
    if has_few(arguments) | has_few(interface_arguments) {
        return validate_each_interface_argument(
            pair,
            first,
            arguments,
            &[],
            interface_first,
            interface_arguments,
            out,
        );
    }
    let mut cells = [0; 4096];
    index_arguments(arguments, &mut cells);
    validate_each_interface_argument(
        pair,
        first,
        arguments,
        &cells,
        interface_first,
        interface_arguments,
        out,
    )
}

// 13 for an own argument that the interface's field lacks, non-null outermost and without default.
fn validate_extra_argument(
    pair: FieldPair,
    first: usize,
    arguments: &[u32],
    interface_arguments: &[u32],
    cells: &[u16],
    i: usize,
    out: &mut [u32],
) -> usize
    requires arguments_bound { first + argument_rows arguments.now ≤ most_arguments }
    requires i_bound { i < argument_rows arguments.now }
    requires arguments_helped { ArgumentsHelped interface_arguments.now cells.now }
    ensures emitted { Emitted (own_argument pair first arguments.now interface_arguments.now i) out.old out.new result }
    ensures upper_bound { result ≤ 1 }
{
    let None = look_up_argument(interface_arguments, cells, argument_name(arguments, i)) else {
        return 0;
    };
    if argument_wrap(arguments, i).non_null(0) & (argument_default(arguments, i) == 0) {
        return put(
            out,
            Record::extra_required_implementation_field_argument(
                pair.ty,
                pair.edge,
                pair.interface_field,
                (first + i) as u32,
            ),
        );
    }
    0
}

// Each own argument; the cells are those of the interface's field, or none.
fn validate_each_extra_argument(
    pair: FieldPair,
    first: usize,
    arguments: &[u32],
    interface_arguments: &[u32],
    cells: &[u16],
    out: &mut [u32],
) -> usize
    requires arguments_bound { first + argument_rows arguments.now ≤ most_arguments }
    requires arguments_helped { ArgumentsHelped interface_arguments.now cells.now }
    ensures emitted { Emitted (own_arguments pair first arguments.now interface_arguments.now) out.old out.new result }
    ensures upper_bound { result ≤ most_arguments }
{
    put_each(
        argument_rows(arguments),
        |i, out| {
            validate_extra_argument(pair, first, arguments, interface_arguments, cells, i, out)
        },
        out,
    )
}

// The same the other way round: the interface's are noted.
fn validate_extra_arguments(
    pair: FieldPair,
    first: usize,
    arguments: &[u32],
    interface_arguments: &[u32],
    out: &mut [u32],
) -> usize
    requires arguments_bound { first + argument_rows arguments.now ≤ most_arguments }
    requires arguments_named { ArgumentsNamed interface_arguments.now }
    ensures emitted { Emitted (own_arguments pair first arguments.now interface_arguments.now) out.old out.new result }
    ensures upper_bound { result ≤ most_arguments }
{
    if has_few(arguments) | has_few(interface_arguments) {
        return validate_each_extra_argument(pair, first, arguments, interface_arguments, &[], out);
    }
    let mut cells = [0; 4096];
    index_arguments(interface_arguments, &mut cells);
    validate_each_extra_argument(pair, first, arguments, interface_arguments, &cells, out)
}

// The arguments of the own field against those of the interface's field.
pub fn validate_implementing_arguments(table: &Table, pair: FieldPair, out: &mut [u32]) -> usize
    requires { (pair.interface_field < table.now.layout.fields) × (pair.own_field < table.now.layout.fields) }
    ensures emitted { Emitted (implementing_arguments table.now.words.now pair.ty.0 pair.edge pair.interface_field pair.own_field) out.old out.new result }
    ensures upper_bound { result ≤ most_of_interface_field }
{
    let words = table.words;
    let l = table.layout;
    let own = pair.own_field as usize;
    let first = arguments_start(words, l, own);
    let arguments = arguments_of(words, l, own);
    let field = pair.interface_field as usize;
    let interface_first = arguments_start(words, l, field);
    let interface_arguments = arguments_of(words, l, field);
    let n = validate_interface_arguments(
        pair,
        first,
        arguments,
        interface_first,
        interface_arguments,
        out,
    );
    let at = used(n, out.len());
    n + validate_extra_arguments(pair, first, arguments, interface_arguments, &mut out[at..])
}
