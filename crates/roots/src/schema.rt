// Schema: 1 if there is no query; each root present: 2 or 3, then 4.
ghost use Rattle.std.specs.Prelude.{◌≡◌, ◌≤◌, ◌<◌};
ghost use Rattle.records.specs.Records.{Emitted, each};
ghost use Rattle.roots.specs.Schema.{root_type, first_root, root_records, query_record, schema_records};
ghost use Rattle.roots.specs.Bounds.{most_of_roots};

use lent::Table;
use records::{Place, Record, put, put_each, used};
use table::kinds::Kind;
use table::layout::Layout;
use table::numbers::{NameNo, TypeRow};

// 2 for a root that is no object, 3 for one that is undefined.
fn validate_root_type(table: &Table, operation: u32, name: NameNo, out: &mut [u32]) -> usize
    ensures emitted { Emitted (root_type table.now.words.now operation name.0) out.old out.new result }
    ensures upper_bound { result ≤ 1 }
{
    let Some(kind) = table.kind_named(name) else {
        return put(
            out,
            Record::undefined_definition(TypeRow::NONE, name, Place::ROOT, operation),
        );
    };
    if kind == Kind::Object {
        return 0;
    }
    put(out, Record::root_operation_object_type(operation, name))
}

// The first operation with the name, or the operation itself.
fn first_root(table: &Table, operation: u32, name: NameNo) -> u32
    requires { operation < 3 }
    ensures { result ≡ first_root table.now.words.now operation name.0 }
{
    (0..operation)
        .find(|&first| table.root(first) == name)
        .unwrap_or(operation)
}

fn validate_root(table: &Table, operation: u32, out: &mut [u32]) -> usize
    requires { operation < 3 }
    ensures emitted { Emitted (root_records table.now.words.now operation) out.old out.new result }
    ensures upper_bound { result ≤ 2 }
{
    let name = table.root(operation);
    if name == NameNo::NONE {
        return 0;
    }
    let n = validate_root_type(table, operation, name, out);
    let first = first_root(table, operation, name);
    if first < operation {
        let at = used(n, out.len());
        return n
            + put(
                &mut out[at..],
                Record::duplicate_root_operation_type(operation, name, first),
            );
    }
    n
}

fn validate_root_operation_definitions(table: &Table, out: &mut [u32]) -> usize
    ensures emitted { Emitted (each (root_records table.now.words.now) 3) out.old out.new result }
    ensures upper_bound { result ≤ 6 }
{
    put_each(
        Layout::ROOTS,
        |operation, out| validate_root(table, operation as u32, out),
        out,
    )
}

// 1 if there is no query.
fn validate_query(table: &Table, out: &mut [u32]) -> usize
    ensures emitted { Emitted (query_record table.now.words.now) out.old out.new result }
    ensures upper_bound { result ≤ 1 }
{
    if table.root(0) == NameNo::NONE {
        return put(out, Record::query_root_operation_type());
    }
    0
}

pub fn validate_schema_definition(table: &Table, out: &mut [u32]) -> usize
    ensures emitted { Emitted (schema_records table.now.words.now) out.old out.new result }
    ensures upper_bound { result ≤ most_of_roots }
{
    let n = validate_query(table, out);
    let at = used(n, out.len());
    n + validate_root_operation_definitions(table, &mut out[at..])
}
