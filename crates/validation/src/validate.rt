// The list of a whole table: the schema's records, then the types' in row order, by kind (the Rust's schema/validation.rs).
ghost use Rattle.std.specs.Prelude.{◌+◌, ◌*◌, ◌≤◌, ◌<◌, length};
ghost use Rattle.records.specs.Records.{Emitted};
ghost use Rattle.validation.specs.Validation.{of_union, of_enum, of_input_object, kind_records, type_list, types_records, counts_of, records as list_of};
ghost use Rattle.validation.specs.Bounds.{most_of_kind, most_of_type, most_records};
ghost use Rattle.table.specs.Layout.{most_members, most_values, most_fields, most_types};

use crate::object::{validate_interface_definition, validate_object_type_definition};
use inputs::input_object::validate_input_object_definition;
use inputs::type_system_name::validate_type_system_name;
use lent::{Schema, Table};
use records::{Place, put_each, used};
use roots::schema::validate_schema_definition;
use rows::parts::{fields_of, fields_start, members_of, members_start, values_of, values_start};
use rules::enum_::validate_enum_definition;
use rules::union_::validate_union_definition;
use table::kinds::Kind;
use table::numbers::TypeRow;

// The parts of a union, an enum and an input object, handed on.
fn validate_union(table: &Table, t: TypeRow, out: &mut [u32]) -> usize
    requires { t.0 < table.now.layout.types }
    ensures emitted { Emitted (of_union table.now.words.now t.0) out.old out.new result }
    ensures upper_bound { result ≤ most_members + 1 }
{
    let first = members_start(table.words, table.layout, t);
    let members = members_of(table.words, table.layout, t);
    validate_union_definition(table, t, first, members, out)
}

fn validate_enum(schema: &Schema, t: TypeRow, out: &mut [u32]) -> usize
    requires { t.0 < schema.now.table.layout.types }
    ensures emitted { Emitted (of_enum schema.now.text.now schema.now.table.words.now t.0) out.old out.new result }
    ensures upper_bound { result ≤ most_values + 1 }
{
    let table = &schema.table;
    let first = values_start(table.words, table.layout, t);
    let values = values_of(table.words, table.layout, t);
    validate_enum_definition(schema, t, first, values, out)
}

fn validate_input_object(schema: &Schema, t: TypeRow, cycle: u32, out: &mut [u32]) -> usize
    requires { t.0 < schema.now.table.layout.types }
    ensures emitted { Emitted (of_input_object schema.now.text.now schema.now.table.words.now cycle t.0) out.old out.new result }
    ensures upper_bound { result ≤ 2 * most_fields + 2 }
{
    let table = &schema.table;
    let first = fields_start(table.words, table.layout, t);
    let fields = fields_of(table.words, table.layout, t);
    validate_input_object_definition(schema, t, cycle, first, fields, out)
}

// The decision on the kind; a scalar has nothing. `cycle` counts the fields of the type's first cycle.
fn validate_kind(schema: &Schema, t: TypeRow, cycle: u32, out: &mut [u32]) -> usize
    requires { t.0 < schema.now.table.layout.types }
    ensures emitted { Emitted (kind_records schema.now.text.now schema.now.table.words.now cycle t.0) out.old out.new result }
    ensures upper_bound { result ≤ most_of_kind }
{
    match schema.table.kind(t) {
        Kind::Scalar => 0,
        Kind::Object => validate_object_type_definition(schema, t, out),
        Kind::Interface => validate_interface_definition(schema, t, out),
        Kind::Union => validate_union(&schema.table, t, out),
        Kind::Enum => validate_enum(schema, t, out),
        Kind::InputObject => validate_input_object(schema, t, cycle, out),
    }
}

// 5 for the type name, then by kind.
fn validate_type(schema: &Schema, t: TypeRow, cycle: u32, out: &mut [u32]) -> usize
    requires { t.0 < schema.now.table.layout.types }
    ensures emitted { Emitted (type_list schema.now.text.now schema.now.table.words.now cycle t.0) out.old out.new result }
    ensures upper_bound { result ≤ most_of_type }
{
    let table = &schema.table;
    let n = validate_type_system_name(
        schema,
        t,
        table.flag(t),
        table.name(t),
        Place::TYPE_NAME,
        t.0,
        out,
    );
    let at = used(n, out.len());
    n + validate_kind(schema, t, cycle, &mut out[at..])
}

// The types in row order; `cycles` has each type's count.
fn validate_types(schema: &Schema, cycles: &[u32], out: &mut [u32]) -> usize
    requires { schema.now.table.layout.types ≤ length cycles.now }
    ensures emitted { Emitted (types_records schema.now.text.now schema.now.table.words.now (counts_of cycles.now)) out.old out.new result }
    ensures upper_bound { result ≤ most_of_type * most_types }
{
    put_each(
        schema.table.layout.types,
        |t, out| validate_type(schema, TypeRow(t as u32), cycles[t], out),
        out,
    )
}

// The list of a whole table.
pub fn validate_schema(schema: &Schema, cycles: &[u32], out: &mut [u32]) -> usize
    requires { schema.now.table.layout.types ≤ length cycles.now }
    ensures emitted { Emitted (list_of schema.now.text.now schema.now.table.words.now (counts_of cycles.now)) out.old out.new result }
    ensures upper_bound { result ≤ most_records }
{
    let n = validate_schema_definition(&schema.table, out);
    let at = used(n, out.len());
    n + validate_types(schema, cycles, &mut out[at..])
}
