// Enum: 5 per value; 16.
ghost use Rattle.std.specs.Prelude.{◌+◌, ◌≤◌, ◌<◌};
ghost use Rattle.records.specs.Records.{Emitted};
ghost use Rattle.rows.specs.Readable.{NamePart};
ghost use Rattle.rules.specs.Enum.{values_records, enum_records};
ghost use Rattle.table.specs.Layout.{most_values};

use inputs::type_system_name::validate_type_system_name;
use lent::Schema;
use records::{Place, Record, put, put_each, used};
use rows::cells::{value_name, value_rows};
use table::numbers::TypeRow;

fn validate_enum_values(
    schema: &Schema,
    t: TypeRow,
    first: usize,
    values: &[u32],
    out: &mut [u32],
) -> usize
    requires t_lt_types { t.0 < schema.now.table.layout.types }
    requires name_part { NamePart schema.now.table.layout first values.now }
    ensures emitted { Emitted (values_records schema.now.text.now schema.now.table.words.now t.0 first values.now) out.old out.new result }
    ensures upper_bound { result ≤ most_values }
{
    let flag = schema.table.flag(t);
    put_each(
        value_rows(values),
        |i, out| {
            let name = value_name(values, i);
            validate_type_system_name(schema, t, flag, name, Place::VALUE, (first + i) as u32, out)
        },
        out,
    )
}

pub fn validate_enum_definition(
    schema: &Schema,
    t: TypeRow,
    first: usize,
    values: &[u32],
    out: &mut [u32],
) -> usize
    requires t_lt_types { t.0 < schema.now.table.layout.types }
    requires name_part { NamePart schema.now.table.layout first values.now }
    ensures emitted { Emitted (enum_records schema.now.text.now schema.now.table.words.now t.0 first values.now) out.old out.new result }
    ensures upper_bound { result ≤ most_values + 1 }
{
    let n = validate_enum_values(schema, t, first, values, out);
    if value_rows(values) == 0 {
        let at = used(n, out.len());
        return n + put(&mut out[at..], Record::empty_value_set(t));
    }
    n
}
