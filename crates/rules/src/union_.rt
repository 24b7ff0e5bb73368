// Union: per member 3 or 14; 15.
ghost use Rattle.std.specs.Prelude.{◌+◌, ◌≤◌};
ghost use Rattle.records.specs.Records.{Emitted};
ghost use Rattle.rows.specs.Readable.{NamePart};
ghost use Rattle.rules.specs.Union.{member_record, members_records, union_records};
ghost use Rattle.table.specs.Layout.{most_members};

use lent::Table;
use records::{Place, Record, put, put_each, used};
use rows::cells::{member_name, member_rows};
use table::kinds::Kind;
use table::numbers::{NameNo, TypeRow};

// 3 for a member that is undefined, 14 for one that is no object.
fn validate_union_member(
    table: &Table,
    t: TypeRow,
    name: NameNo,
    row: u32,
    out: &mut [u32],
) -> usize
    ensures emitted { Emitted (member_record table.now.words.now t.0 name.0 row) out.old out.new result }
    ensures upper_bound { result ≤ 1 }
{
    let Some(kind) = table.kind_named(name) else {
        return put(
            out,
            Record::undefined_definition(t, name, Place::MEMBER, row),
        );
    };
    if kind == Kind::Object {
        return 0;
    }
    put(out, Record::union_member_object_type(t, row))
}

fn validate_union_members(
    table: &Table,
    t: TypeRow,
    first: usize,
    members: &[u32],
    out: &mut [u32],
) -> usize
    requires { NamePart table.now.layout first members.now }
    ensures emitted { Emitted (members_records table.now.words.now t.0 first members.now) out.old out.new result }
    ensures upper_bound { result ≤ most_members }
{
    put_each(
        member_rows(members),
        |i, out| {
            let row = (first + i) as u32;
            validate_union_member(table, t, member_name(members, i), row, out)
        },
        out,
    )
}

pub fn validate_union_definition(
    table: &Table,
    t: TypeRow,
    first: usize,
    members: &[u32],
    out: &mut [u32],
) -> usize
    requires { NamePart table.now.layout first members.now }
    ensures emitted { Emitted (union_records table.now.words.now t.0 first members.now) out.old out.new result }
    ensures upper_bound { result ≤ most_members + 1 }
{
    let n = validate_union_members(table, t, first, members, out);
    if member_rows(members) == 0 {
        let at = used(n, out.len());
        return n + put(&mut out[at..], Record::empty_member_set(t));
    }
    n
}
