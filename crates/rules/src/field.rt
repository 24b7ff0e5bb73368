// Fields of objects and interfaces: 5; the arguments; then 3 or 19.
ghost use Rattle.std.specs.Prelude.{◌+◌, ◌*◌, ◌≤◌, ◌<◌};
ghost use Rattle.records.specs.Records.{Emitted};
ghost use Rattle.rows.specs.Parts.{field_rows};
ghost use Rattle.rows.specs.Readable.{FieldPart};
ghost use Rattle.rules.specs.Field.{output_type_record, field_definition_record, field_record, fields_records};
ghost use Rattle.rules.specs.Bounds.{most_of_field};
ghost use Rattle.inputs.specs.Bounds.{most_of_arguments};
ghost use Rattle.table.specs.Layout.{most_fields};

use inputs::input_object::validate_argument_definitions;
use inputs::type_system_name::validate_type_system_name;
use lent::Schema;
use records::{Place, Record, put, put_each, used};
use rows::cells::{field_name, field_rows, field_type};
use rows::parts::{arguments_of, arguments_start};
use table::kinds::Kind;
use table::numbers::{NameNo, TypeRow};

// A type here: 19 for kind 5. Another: 3 unless it is a built-in scalar.
fn validate_output_type(
    schema: &Schema,
    t: TypeRow,
    name: NameNo,
    row: u32,
    out: &mut [u32],
) -> usize
    requires { name.0 < schema.now.table.layout.names }
    ensures emitted { Emitted (output_type_record schema.now.text.now schema.now.table.words.now t.0 name.0 row) out.old out.new result }
    ensures upper_bound { result ≤ 1 }
{
    let Some(kind) = schema.table.kind_named(name) else {
        if schema.is_builtin(name) {
            return 0;
        }
        return put(
            out,
            Record::undefined_definition(t, name, Place::FIELD, row),
        );
    };
    if Kind::is_input_object(u32::from(kind)) {
        return put(out, Record::output_type(t, row));
    }
    0
}

// 5, and the arguments.
fn validate_field_definition(
    schema: &Schema,
    t: TypeRow,
    name: NameNo,
    f: usize,
    out: &mut [u32],
) -> usize
    requires t_lt_types { t.0 < schema.now.table.layout.types }
    requires name_lt_names { name.0 < schema.now.table.layout.names }
    requires f_lt_fields { f < schema.now.table.layout.fields }
    ensures emitted { Emitted (field_definition_record schema.now.text.now schema.now.table.words.now t.0 name.0 f) out.old out.new result }
    ensures upper_bound { result ≤ most_of_arguments + 1 }
{
    let table = &schema.table;
    let n = validate_type_system_name(schema, t, table.flag(t), name, Place::FIELD, f as u32, out);
    let at = used(n, out.len());
    let first = arguments_start(table.words, table.layout, f);
    let arguments = arguments_of(table.words, table.layout, f);
    n + validate_argument_definitions(schema, t, first, arguments, &mut out[at..])
}

// Field i of the part.
fn validate_field(
    schema: &Schema,
    t: TypeRow,
    first: usize,
    fields: &[u32],
    i: usize,
    out: &mut [u32],
) -> usize
    requires t_lt_types { t.0 < schema.now.table.layout.types }
    requires field_part { FieldPart schema.now.table.layout first fields.now }
    requires i_bound { i < field_rows fields.now }
    ensures emitted { Emitted (field_record schema.now.text.now schema.now.table.words.now t.0 first fields.now i) out.old out.new result }
    ensures upper_bound { result ≤ most_of_field }
{
    let f = first + i;
    let n = validate_field_definition(schema, t, field_name(fields, i), f, out);
    let at = used(n, out.len());
    n + validate_output_type(schema, t, field_type(fields, i), f as u32, &mut out[at..])
}

pub fn validate_field_definitions(
    schema: &Schema,
    t: TypeRow,
    first: usize,
    fields: &[u32],
    out: &mut [u32],
) -> usize
    requires t_lt_types { t.0 < schema.now.table.layout.types }
    requires field_part { FieldPart schema.now.table.layout first fields.now }
    ensures emitted { Emitted (fields_records schema.now.text.now schema.now.table.words.now t.0 first fields.now) out.old out.new result }
    ensures upper_bound { result ≤ most_of_field * most_fields }
{
    put_each(
        field_rows(fields),
        |i, out| validate_field(schema, t, first, fields, i, out),
        out,
    )
}
