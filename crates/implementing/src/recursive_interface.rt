// 6: an interface whose edge names itself (the Rust's interface.rs, validate_interface_definition).
ghost use Rattle.std.specs.Prelude.{◌≤◌, ◌<◌, ◌∷◌, [], eqb};
ghost use Rattle.records.specs.Records.{Emitted, when};
ghost use Rattle.records.specs.Rows.{recursive_interface_definition};
ghost use Rattle.rows.specs.Readable.{NamePart};
ghost use Rattle.implementing.specs.Interface.{self_edges};
ghost use Rattle.table.specs.Layout.{most_edges};

use lent::Table;
use records::{Record, put, put_each};
use rows::cells::{edge_name, edge_rows};
use table::numbers::{NameNo, TypeRow};

// 6 for an edge that names the type itself.
fn validate_self_edge(t: TypeRow, own: NameNo, name: NameNo, row: u32, out: &mut [u32]) -> usize
    ensures emitted { Emitted (when (eqb name.0 own.0) (recursive_interface_definition t.0 row ∷ [])) out.old out.new result }
    ensures upper_bound { result ≤ 1 }
{
    if name == own {
        return put(out, Record::recursive_interface_definition(t, row));
    }
    0
}

// 6 per edge.
pub fn validate_self_edges(
    table: &Table,
    t: TypeRow,
    first: usize,
    edges: &[u32],
    out: &mut [u32],
) -> usize
    requires t_lt_types { t.0 < table.now.layout.types }
    requires name_part { NamePart table.now.layout first edges.now }
    ensures emitted { Emitted (self_edges table.now.words.now t.0 first edges.now) out.old out.new result }
    ensures upper_bound { result ≤ most_edges }
{
    let own = table.name(t);
    put_each(
        edge_rows(edges),
        |i, out| validate_self_edge(t, own, edge_name(edges, i), (first + i) as u32, out),
        out,
    )
}
