// Reserved names (the Rust's schema/validation.rs).
ghost use Rattle.std.specs.Prelude.{◌≤◌, ◌<◌};
ghost use Rattle.records.specs.Records.{Emitted};
ghost use Rattle.inputs.specs.Names.{name_record};

use lent::Schema;
use records::{Place, Record, put};
use table::numbers::{NameNo, TypeRow};

// 5 for a name of the type that starts with `__`, where the flag is 0.
pub fn validate_type_system_name(
    schema: &Schema,
    t: TypeRow,
    flag: u32,
    name: NameNo,
    place: Place,
    row: u32,
    out: &mut [u32],
) -> usize
    requires { name.0 < schema.now.table.layout.names }
    ensures emitted { Emitted (name_record schema.now.text.now schema.now.table.words.now t.0 flag name.0 place.0 row) out.old out.new result }
    ensures upper_bound { result ≤ 1 }
{
    if flag != 0 {
        return 0;
    }
    if schema.is_reserved(name) {
        return put(out, Record::reserved_name(t, name, place, row));
    }
    0
}
