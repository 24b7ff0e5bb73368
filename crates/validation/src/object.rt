// Object: its fields; 7; its edges. Interface: 6 per edge naming itself, then as object.
ghost use Rattle.std.specs.Prelude.{◌≤◌, ◌<◌};
ghost use Rattle.records.specs.Records.{Emitted};
ghost use Rattle.rows.specs.Readable.{FieldPart};
ghost use Rattle.validation.specs.Object.{field_set_records, object_records, interface_records};
ghost use Rattle.validation.specs.Bounds.{most_of_fields, most_of_object, most_of_kind};

use implementing::implementor::Implementor;
use implementing::interface::validate_edges;
use implementing::recursive_interface::validate_self_edges;
use lent::Schema;
use records::{Record, put, used};
use rows::cells::field_rows;
use rows::parts::{edges_of, edges_start, fields_of, fields_start};
use rules::field::validate_field_definitions;
use table::numbers::TypeRow;

// The fields; 7 where there is none.
fn validate_fields(
    schema: &Schema,
    t: TypeRow,
    first: usize,
    fields: &[u32],
    out: &mut [u32],
) -> usize
    requires t_lt_types { t.0 < schema.now.table.layout.types }
    requires field_part { FieldPart schema.now.table.layout first fields.now }
    ensures emitted { Emitted (field_set_records schema.now.text.now schema.now.table.words.now t.0 first fields.now) out.old out.new result }
    ensures upper_bound { result ≤ most_of_fields }
{
    let n = validate_field_definitions(schema, t, first, fields, out);
    if field_rows(fields) == 0 {
        let at = used(n, out.len());
        return n + put(&mut out[at..], Record::empty_field_set(t));
    }
    n
}

pub fn validate_object_type_definition(schema: &Schema, t: TypeRow, out: &mut [u32]) -> usize
    requires { t.0 < schema.now.table.layout.types }
    ensures emitted { Emitted (object_records schema.now.text.now schema.now.table.words.now t.0) out.old out.new result }
    ensures upper_bound { result ≤ most_of_object }
{
    let table = &schema.table;
    let edges_first = edges_start(table.words, table.layout, t);
    let edges = edges_of(table.words, table.layout, t);
    let fields_first = fields_start(table.words, table.layout, t);
    let fields = fields_of(table.words, table.layout, t);
    let n = validate_fields(schema, t, fields_first, fields, out);
    let at = used(n, out.len());
    let implementor = Implementor {
        ty: t,
        edges_first,
        fields_first,
    };
    n + validate_edges(table, implementor, edges, fields, &mut out[at..])
}

pub fn validate_interface_definition(schema: &Schema, t: TypeRow, out: &mut [u32]) -> usize
    requires { t.0 < schema.now.table.layout.types }
    ensures emitted { Emitted (interface_records schema.now.text.now schema.now.table.words.now t.0) out.old out.new result }
    ensures upper_bound { result ≤ most_of_kind }
{
    let table = &schema.table;
    let first = edges_start(table.words, table.layout, t);
    let edges = edges_of(table.words, table.layout, t);
    let n = validate_self_edges(table, t, first, edges, out);
    let at = used(n, out.len());
    n + validate_object_type_definition(schema, t, &mut out[at..])
}
