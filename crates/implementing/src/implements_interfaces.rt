// Which edges are defined, 3, and which the implemented interfaces ask for besides, 8 (the Rust's interface.rs,
// validate_implements_interfaces). An edge is defined if its name is an interface here.
ghost use Rattle.std.specs.Prelude.{◌≡◌, ◌+◌, ◌≤◌, ◌<◌};
ghost use Rattle.records.specs.Records.{Emitted};
ghost use Rattle.rows.specs.Parts.{edge_rows, edges_of};
ghost use Rattle.rows.specs.Readable.{NamePart};
ghost use Rattle.rows.specs.Index.{Indexed};
ghost use Rattle.rising.specs.Lists.{Sorted};
ghost use Rattle.implementing.specs.Interface.{undefined_edge, transitive_edge, transitive_edges};
ghost use Rattle.implementing.specs.Rules.{found_interface};
ghost use Rattle.table.specs.Layout.{most_edges};

use crate::implementor::Implementor;
use records::{Place, Record, put, put_each};
use rising::lists::is_edge_of;
use rows::cells::{edge_name, edge_rows};
use rows::index::look_up;
use rows::parts::{edges_of, edges_start};
use rows::types::kind_of;
use table::kinds::Kind;
use table::layout::Layout;
use table::numbers::{NameNo, TypeRow};

// The interface of the name.
pub fn find_interface(words: &[u32], l: Layout, index: &[u16], name: NameNo) -> Option<TypeRow>
    requires { Indexed words.now l index.now }
    ensures { result ≡ found_interface words.now name.0 }
{
    let t = look_up(words, l, index, name)?;
    if kind_of(words, l, t) == Kind::Interface {
        return Some(t);
    }
    None
}

// 3 for an edge that is not defined.
pub fn validate_edge_defined(
    words: &[u32],
    l: Layout,
    index: &[u16],
    own: Implementor,
    edges: &[u32],
    i: usize,
    out: &mut [u32],
) -> usize
    requires indexed { Indexed words.now l index.now }
    requires name_part { NamePart l own.edges_first edges.now }
    requires i_bound { i < edge_rows edges.now }
    ensures emitted { Emitted (undefined_edge words.now own.ty.0 own.edges_first edges.now i) out.old out.new result }
    ensures upper_bound { result ≤ 1 }
{
    let name = edge_name(edges, i);
    let None = find_interface(words, l, index, name) else {
        return 0;
    };
    let row = (own.edges_first + i) as u32;
    put(
        out,
        Record::undefined_definition(own.ty, name, Place::EDGE, row),
    )
}

// 8 for an edge i of the interface that the type lacks.
fn validate_transitive_edge(
    words: &[u32],
    l: Layout,
    lists: &[u16],
    ty: TypeRow,
    via_edge: u32,
    first: usize,
    interface_edges: &[u32],
    i: usize,
    out: &mut [u32],
) -> usize
    requires sorted { Sorted words.now l lists.now }
    requires ty_lt_types { ty.0 < l.types }
    requires i_bound { (i < edge_rows interface_edges.now) × (first + edge_rows interface_edges.now ≤ most_edges) }
    ensures emitted { Emitted (transitive_edge ty.0 (edges_of words.now ty.0) via_edge first interface_edges.now i) out.old out.new result }
    ensures upper_bound { result ≤ 1 }
{
    if is_edge_of(words, l, lists, edge_name(interface_edges, i), ty) {
        return 0;
    }
    let row = (first + i) as u32;
    put(
        out,
        Record::transitive_implemented_interfaces(ty, via_edge, row),
    )
}

// 8 per edge of the interface behind an edge.
pub fn validate_transitive_edges(
    words: &[u32],
    l: Layout,
    lists: &[u16],
    ty: TypeRow,
    via_edge: u32,
    interface: TypeRow,
    out: &mut [u32],
) -> usize
    requires sorted { Sorted words.now l lists.now }
    requires ty_lt_types { (ty.0 < l.types) × (interface.0 < l.types) }
    ensures emitted { Emitted (transitive_edges words.now ty.0 (edges_of words.now ty.0) via_edge interface.0) out.old out.new result }
    ensures upper_bound { result ≤ most_edges }
{
    let first = edges_start(words, l, interface);
    let interface_edges = edges_of(words, l, interface);
    put_each(
        edge_rows(interface_edges),
        |i, out| {
            validate_transitive_edge(
                words,
                l,
                lists,
                ty,
                via_edge,
                first,
                interface_edges,
                i,
                out,
            )
        },
        out,
    )
}
