// An interface's fields against the type's own: 9, 10, or 11 to 13.
ghost use Rattle.std.specs.Prelude.{◌≤◌, ◌<◌};
ghost use Rattle.records.specs.Records.{Emitted};
ghost use Rattle.rows.specs.Parts.{field_rows};
ghost use Rattle.rows.specs.Readable.{FieldPart};
ghost use Rattle.matching.specs.Fields.{missing_field, field_type_record, field_arguments, interface_fields};
ghost use Rattle.table.specs.Layout.{most_fields};
ghost use Rattle.matching.specs.Bounds.{most_of_interface};
ghost use Rattle.comparing.specs.Bounds.{most_of_interface_field};

use crate::own::{Interface, Own, interface_at};
use comparing::field_types::is_valid_implementation_field_type;
use comparing::implementation_argument::{FieldPair, validate_implementing_arguments};
use lookup::fields::look_up_field;
use records::{Record, put, put_each};
use rows::cells::{field_name, field_rows, field_type, field_wrap};
use table::numbers::TypeRow;

// 9 for a field of the interface that the type lacks.
fn validate_missing_field(own: &Own, against: &Interface, i: usize, out: &mut [u32]) -> usize
    requires field_part { FieldPart own.now.table.now.layout against.now.first against.now.fields.now }
    requires i_bound { i < field_rows against.now.fields.now }
    ensures emitted { Emitted (missing_field own.now.ty.0 own.now.fields.now against.now.edge against.now.fields.now against.now.first i) out.old out.new result }
    ensures upper_bound { result ≤ 1 }
{
    let None = look_up_field(own.fields, own.cells, field_name(against.fields, i)) else {
        return 0;
    };
    let row = (against.first + i) as u32;
    put(
        out,
        Record::missing_interface_field(own.ty, against.edge, row),
    )
}

// 10 for an own field whose type does not do for the interface's.
fn validate_field_type(own: &Own, against: &Interface, i: usize, out: &mut [u32]) -> usize
    requires field_part { FieldPart own.now.table.now.layout against.now.first against.now.fields.now }
    requires i_bound { i < field_rows against.now.fields.now }
    ensures emitted { Emitted (field_type_record own.now.table.now.words.now own.now.ty.0 own.now.fields_first own.now.fields.now against.now.edge against.now.fields.now against.now.first i) out.old out.new result }
    ensures upper_bound { result ≤ 1 }
{
    let Some(own_at) = look_up_field(own.fields, own.cells, field_name(against.fields, i)) else {
        return 0;
    };
    let name = field_type(against.fields, i);
    let wrap = field_wrap(against.fields, i);
    let own_name = field_type(own.fields, own_at);
    let own_wrap = field_wrap(own.fields, own_at);
    if is_valid_implementation_field_type(own.table, name, wrap, own_name, own_wrap) {
        return 0;
    }
    let row = (against.first + i) as u32;
    let own_row = (own.fields_first + own_at) as u32;
    put(
        out,
        Record::invalid_implementation_field_type(own.ty, against.edge, row, own_row),
    )
}

// 11 to 13 for a field of the interface.
fn validate_arguments(own: &Own, against: &Interface, i: usize, out: &mut [u32]) -> usize
    requires field_part { FieldPart own.now.table.now.layout against.now.first against.now.fields.now }
    requires i_bound { i < field_rows against.now.fields.now }
    ensures emitted { Emitted (field_arguments own.now.table.now.words.now own.now.ty.0 own.now.fields_first own.now.fields.now against.now.edge against.now.fields.now against.now.first i) out.old out.new result }
    ensures upper_bound { result ≤ most_of_interface_field }
{
    let Some(own_at) = look_up_field(own.fields, own.cells, field_name(against.fields, i)) else {
        return 0;
    };
    let pair = FieldPair {
        ty: own.ty,
        edge: against.edge,
        interface_field: (against.first + i) as u32,
        own_field: (own.fields_first + own_at) as u32,
    };
    validate_implementing_arguments(own.table, pair, out)
}

// 9 for each field of the interface of a type row, behind an edge.
pub fn validate_missing_fields(own: &Own, edge: u32, t: TypeRow, out: &mut [u32]) -> usize
    requires { t.0 < own.now.table.now.layout.types }
    ensures emitted { Emitted (interface_fields (missing_field own.now.ty.0 own.now.fields.now edge) own.now.table.now.words.now t.0) out.old out.new result }
    ensures upper_bound { result ≤ most_of_interface }
{
    let interface = interface_at(own.table, edge, t);
    put_each(
        field_rows(interface.fields),
        |i, out| validate_missing_field(own, &interface, i, out),
        out,
    )
}

// 10 for each.
pub fn validate_field_types(own: &Own, edge: u32, t: TypeRow, out: &mut [u32]) -> usize
    requires { t.0 < own.now.table.now.layout.types }
    ensures emitted { Emitted (interface_fields (field_type_record own.now.table.now.words.now own.now.ty.0 own.now.fields_first own.now.fields.now edge) own.now.table.now.words.now t.0) out.old out.new result }
    ensures upper_bound { result ≤ most_of_interface }
{
    let interface = interface_at(own.table, edge, t);
    put_each(
        field_rows(interface.fields),
        |i, out| validate_field_type(own, &interface, i, out),
        out,
    )
}

// 11 to 13 for each.
pub fn validate_field_arguments(own: &Own, edge: u32, t: TypeRow, out: &mut [u32]) -> usize
    requires { t.0 < own.now.table.now.layout.types }
    ensures emitted { Emitted (interface_fields (field_arguments own.now.table.now.words.now own.now.ty.0 own.now.fields_first own.now.fields.now edge) own.now.table.now.words.now t.0) out.old out.new result }
    ensures upper_bound { result ≤ most_of_interface }
{
    let interface = interface_at(own.table, edge, t);
    put_each(
        field_rows(interface.fields),
        |i, out| validate_arguments(own, &interface, i, out),
        out,
    )
}
