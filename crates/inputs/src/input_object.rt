// Input object: 17; per field 5, then 3 or 18; 21. Arguments: 5, then 3 or 18; then 20.
ghost use Rattle.std.specs.Prelude.{◌≡◌, ◌+◌, ◌*◌, ◌≤◌, ◌<◌};
ghost use Rattle.records.specs.Records.{Emitted};
ghost use Rattle.table.specs.Answers.{kind_number};
ghost use Rattle.rows.specs.Parts.{argument_rows};
ghost use Rattle.rows.specs.Readable.{FieldPart, ArgumentPart};
ghost use Rattle.lookup.specs.Cells.{ArgumentsNamed, ArgumentsHelped};
ghost use Rattle.inputs.specs.InputObject.{input_kind, input_type_record, input_value, argument_values_records, repeat_record, repeats_records, arguments_records, cycle_record, input_values_records, input_fields_records, input_object_records};
ghost use Rattle.inputs.specs.Bounds.{most_of_arguments};
ghost use Rattle.table.specs.Layout.{most_arguments, most_fields};

use crate::type_system_name::validate_type_system_name;
use lent::Schema;
use lookup::arguments::{has_few, index_arguments, look_up_argument};
use records::{Place, Record, put, put_each, used};
use rows::cells::{
    argument_name, argument_rows, argument_type, field_name, field_rows, field_type,
};
use table::kinds::Kind;
use table::numbers::{NameNo, TypeRow};

// Input types: kinds 0, 4, 5.
#[tactic(auto, unfolding(table::specs::Kinds::input_object_kind))]
fn is_input_kind(kind: Kind) -> bool
    ensures { result ≡ input_kind (kind_number kind) }
{
    matches!(kind, Kind::Scalar | Kind::Enum | Kind::InputObject)
}

// A type here: 18 unless it is an input type. Another: 3 unless it is a built-in scalar.
fn validate_input_type(
    schema: &Schema,
    t: TypeRow,
    name: NameNo,
    place: Place,
    row: u32,
    out: &mut [u32],
) -> usize
    requires { name.0 < schema.now.table.layout.names }
    ensures emitted { Emitted (input_type_record schema.now.text.now schema.now.table.words.now t.0 name.0 place.0 row) out.old out.new result }
    ensures upper_bound { result ≤ 1 }
{
    let Some(kind) = schema.table.kind_named(name) else {
        if schema.is_builtin(name) {
            return 0;
        }
        return put(out, Record::undefined_definition(t, name, place, row));
    };
    if is_input_kind(kind) {
        return 0;
    }
    put(out, Record::input_type(t, place, row))
}

// An argument or an input field: its name, its type's name, and the flag that silences record 5.
#[derive(Clone, Copy)]
struct InputValue {
    name: NameNo,
    ty: NameNo,
    flag: u32,
}

// 5, then 3 or 18.
fn validate_input_value(
    schema: &Schema,
    t: TypeRow,
    value: InputValue,
    place: Place,
    row: u32,
    out: &mut [u32],
) -> usize
    requires { (value.name.0 < schema.now.table.layout.names) × (value.ty.0 < schema.now.table.layout.names) }
    ensures emitted { Emitted (input_value schema.now.text.now schema.now.table.words.now t.0 value.flag value.name.0 value.ty.0 place.0 row) out.old out.new result }
    ensures upper_bound { result ≤ 2 }
{
    let n = validate_type_system_name(schema, t, value.flag, value.name, place, row, out);
    let at = used(n, out.len());
    n + validate_input_type(schema, t, value.ty, place, row, &mut out[at..])
}

fn validate_argument_values(
    schema: &Schema,
    t: TypeRow,
    first: usize,
    arguments: &[u32],
    out: &mut [u32],
) -> usize
    requires t_lt_types { t.0 < schema.now.table.layout.types }
    requires argument_part { ArgumentPart schema.now.table.layout first arguments.now }
    ensures emitted { Emitted (argument_values_records schema.now.text.now schema.now.table.words.now t.0 first arguments.now) out.old out.new result }
    ensures upper_bound { result ≤ 2 * most_arguments }
{
    let flag = schema.table.flag(t);
    put_each(
        argument_rows(arguments),
        |i, out| {
            let name = argument_name(arguments, i);
            let ty = argument_type(arguments, i);
            let value = InputValue { name, ty, flag };
            validate_input_value(schema, t, value, Place::ARGUMENT, (first + i) as u32, out)
        },
        out,
    )
}

// 20 for an argument whose name came before, against the first of the name.
fn validate_unique_argument(
    t: TypeRow,
    first: usize,
    arguments: &[u32],
    cells: &[u16],
    i: usize,
    out: &mut [u32],
) -> usize
    requires arguments_bound { (first + argument_rows arguments.now ≤ most_arguments) × (i < argument_rows arguments.now) }
    requires arguments_helped { ArgumentsHelped arguments.now cells.now }
    ensures emitted { Emitted (repeat_record t.0 first arguments.now i) out.old out.new result }
    ensures upper_bound { result ≤ 1 }
{
    let Some(j) = look_up_argument(arguments, cells, argument_name(arguments, i)) else {
        return 0;
    };
    if j < i {
        return put(
            out,
            Record::unique_input_value(t, (first + j) as u32, (first + i) as u32),
        );
    }
    0
}

// Each argument; the cells tell the arguments, or there are none.
fn validate_each_unique_argument(
    t: TypeRow,
    first: usize,
    arguments: &[u32],
    cells: &[u16],
    out: &mut [u32],
) -> usize
    requires arguments_bound { first + argument_rows arguments.now ≤ most_arguments }
    requires arguments_helped { ArgumentsHelped arguments.now cells.now }
    ensures emitted { Emitted (repeats_records t.0 first arguments.now) out.old out.new result }
    ensures upper_bound { result ≤ most_arguments }
{
    put_each(
        argument_rows(arguments),
        |i, out| validate_unique_argument(t, first, arguments, cells, i, out),
        out,
    )
}

// Each is looked for among all, so where there are many they are noted in cells first.
fn validate_unique_arguments(t: TypeRow, first: usize, arguments: &[u32], out: &mut [u32]) -> usize
    requires arguments_bound { first + argument_rows arguments.now ≤ most_arguments }
    requires arguments_named { ArgumentsNamed arguments.now }
    ensures emitted { Emitted (repeats_records t.0 first arguments.now) out.old out.new result }
    ensures upper_bound { result ≤ most_arguments }
{
    if has_few(arguments) {
        return validate_each_unique_argument(t, first, arguments, &[], out);
    }
    let mut cells = [0; 4096];
    index_arguments(arguments, &mut cells);
    validate_each_unique_argument(t, first, arguments, &cells, out)
}

pub fn validate_argument_definitions(
    schema: &Schema,
    t: TypeRow,
    first: usize,
    arguments: &[u32],
    out: &mut [u32],
) -> usize
    requires t_lt_types { t.0 < schema.now.table.layout.types }
    requires argument_part { ArgumentPart schema.now.table.layout first arguments.now }
    ensures emitted { Emitted (arguments_records schema.now.text.now schema.now.table.words.now t.0 first arguments.now) out.old out.new result }
    ensures upper_bound { result ≤ most_of_arguments }
{
    let n = validate_argument_values(schema, t, first, arguments, out);
    let at = used(n, out.len());
    n + validate_unique_arguments(t, first, arguments, &mut out[at..])
}

fn validate_input_values(
    schema: &Schema,
    t: TypeRow,
    first: usize,
    fields: &[u32],
    out: &mut [u32],
) -> usize
    requires t_lt_types { t.0 < schema.now.table.layout.types }
    requires field_part { FieldPart schema.now.table.layout first fields.now }
    ensures emitted { Emitted (input_values_records schema.now.text.now schema.now.table.words.now t.0 first fields.now) out.old out.new result }
    ensures upper_bound { result ≤ 2 * most_fields }
{
    let flag = schema.table.flag(t);
    put_each(
        field_rows(fields),
        |i, out| {
            let name = field_name(fields, i);
            let ty = field_type(fields, i);
            let value = InputValue { name, ty, flag };
            validate_input_value(
                schema,
                t,
                value,
                Place::INPUT_FIELD,
                (first + i) as u32,
                out,
            )
        },
        out,
    )
}

// The fields; 21 where there is none.
fn validate_input_fields(
    schema: &Schema,
    t: TypeRow,
    first: usize,
    fields: &[u32],
    out: &mut [u32],
) -> usize
    requires t_lt_types { t.0 < schema.now.table.layout.types }
    requires field_part { FieldPart schema.now.table.layout first fields.now }
    ensures emitted { Emitted (input_fields_records schema.now.text.now schema.now.table.words.now t.0 first fields.now) out.old out.new result }
    ensures upper_bound { result ≤ 2 * most_fields + 1 }
{
    let n = validate_input_values(schema, t, first, fields, out);
    if field_rows(fields) == 0 {
        let at = used(n, out.len());
        return n + put(&mut out[at..], Record::empty_input_value_set(t));
    }
    n
}

// 17 with the count of fields in the first cycle, if there is one.
fn validate_cycle(t: TypeRow, cycle: u32, out: &mut [u32]) -> usize
    ensures emitted { Emitted (cycle_record t.0 cycle) out.old out.new result }
    ensures upper_bound { result ≤ 1 }
{
    if 0 < cycle {
        return put(out, Record::recursive_input_object_definition(t, cycle));
    }
    0
}

pub fn validate_input_object_definition(
    schema: &Schema,
    t: TypeRow,
    cycle: u32,
    first: usize,
    fields: &[u32],
    out: &mut [u32],
) -> usize
    requires t_lt_types { t.0 < schema.now.table.layout.types }
    requires field_part { FieldPart schema.now.table.layout first fields.now }
    ensures emitted { Emitted (input_object_records schema.now.text.now schema.now.table.words.now t.0 cycle first fields.now) out.old out.new result }
    ensures upper_bound { result ≤ 2 * most_fields + 2 }
{
    let n = validate_cycle(t, cycle, out);
    let at = used(n, out.len());
    n + validate_input_fields(schema, t, first, fields, &mut out[at..])
}
