// Edges: 3; 8; 9; 10; 11 or 12 per interface argument, then 13 (the Rust's interface.rs). 8 to 13 run over defined edges only, each over all
// edges, so the loop over them is handed what a rule lists for one.
ghost use Rattle.std.specs.Prelude.{◌*◌, ◌≤◌, ◌<◌};
ghost use Rattle.records.specs.Records.{Emitted, each};
ghost use Rattle.rows.specs.Parts.{edge_rows};
ghost use Rattle.rows.specs.Readable.{FieldPart};
ghost use Rattle.implementing.specs.Interface.{undefined_edge, transitive_edges, implements_records, implemented_fields, edges_records, defined_edge, defined_edges};
ghost use Rattle.matching.specs.Own.{OwnEdges, OwnFields};
ghost use Rattle.implementing.specs.Rules.{Callable, EmitsDefined, AtMostDefined};
ghost use Rattle.matching.specs.Bounds.{most_of_interface};
ghost use Rattle.implementing.specs.Bounds.{most_of_edges};

use crate::implementor::Implementor;
use crate::implements_interfaces::{
    find_interface, validate_edge_defined, validate_transitive_edges,
};
use lent::Table;
use lookup::fields::{has_few, index_fields};
use matching::implementation_field::{
    validate_field_arguments, validate_field_types, validate_missing_fields,
};
use matching::own::Own;
use records::{put_each, used};
use rows::cells::{edge_name, edge_rows};
use table::numbers::TypeRow;

// A rule for edge i, if its name is an interface here: the rule is handed the edge's row and the interface's.
fn validate_defined_edge<F: Fn(u32, TypeRow, &mut [u32]) -> usize>(
    own: &Own,
    rule: &F,
    i: usize,
    out: &mut [u32],
) -> usize
    requires i_bound { i < edge_rows own.now.edges.now }
    requires callable { Callable (F.pre rule.now) own.now.table.now.layout.types }
    requires bounded { AtMostDefined (F.post rule.now) own.now.table.now.layout.types most_of_interface }
    ensures emitted { EmitsDefined (F.post rule.now) own.now.table.now.layout.types (λ list. defined_edge list own.now.table.now.words.now own.now.edges_first own.now.edges.now i) out.old out.new result }
    ensures upper_bound { result ≤ most_of_interface }
{
    let table = own.table;
    let name = edge_name(own.edges, i);
    let Some(interface) = find_interface(table.words, table.layout, table.index, name) else {
        return 0;
    };
    rule((own.edges_first + i) as u32, interface, out)
}

// A rule for each defined edge.
fn validate_defined_edges<F: Fn(u32, TypeRow, &mut [u32]) -> usize>(
    own: &Own,
    rule: F,
    out: &mut [u32],
) -> usize
    requires callable { Callable (F.pre rule) own.now.table.now.layout.types }
    requires bounded { AtMostDefined (F.post rule) own.now.table.now.layout.types most_of_interface }
    ensures emitted { EmitsDefined (F.post rule) own.now.table.now.layout.types (λ list. defined_edges list own.now.table.now.words.now own.now.edges_first own.now.edges.now) out.old out.new result }
    ensures upper_bound { result ≤ most_of_edges }
{
    put_each(
        edge_rows(own.edges),
        |i, out| validate_defined_edge(own, &rule, i, out),
        out,
    )
}

// 3 per edge that is not defined.
fn validate_undefined_edges(own: &Own, out: &mut [u32]) -> usize
    ensures emitted { Emitted (each (undefined_edge own.now.table.now.words.now own.now.ty.0 own.now.edges_first own.now.edges.now) (edge_rows own.now.edges.now)) out.old out.new result }
    ensures upper_bound { result ≤ most_of_edges }
{
    let table = own.table;
    let implementor = Implementor {
        ty: own.ty,
        edges_first: own.edges_first,
        fields_first: own.fields_first,
    };
    put_each(
        edge_rows(own.edges),
        |i, out| {
            validate_edge_defined(
                table.words,
                table.layout,
                table.index,
                implementor,
                own.edges,
                i,
                out,
            )
        },
        out,
    )
}

// 8 per edge of each interface.
fn validate_transitive_interfaces(own: &Own, out: &mut [u32]) -> usize
    ensures emitted { Emitted (defined_edges (transitive_edges own.now.table.now.words.now own.now.ty.0 own.now.edges.now) own.now.table.now.words.now own.now.edges_first own.now.edges.now) out.old out.new result }
    ensures upper_bound { result ≤ most_of_edges }
{
    let table = own.table;
    validate_defined_edges(
        own,
        |edge, interface, out| {
            validate_transitive_edges(
                table.words,
                table.layout,
                table.lists,
                own.ty,
                edge,
                interface,
                out,
            )
        },
        out,
    )
}

// The first two loops over the edges: 3; 8.
fn validate_implements_interfaces(own: &Own, out: &mut [u32]) -> usize
    ensures emitted { Emitted (implements_records own.now.table.now.words.now own.now.ty.0 own.now.edges_first own.now.edges.now) out.old out.new result }
    ensures upper_bound { result ≤ 2 * most_of_edges }
{
    let n = validate_undefined_edges(own, out);
    let at = used(n, out.len());
    n + validate_transitive_interfaces(own, &mut out[at..])
}

// The three over the interface's fields: 9; 10; 11 to 13.
fn validate_implementation_fields(own: &Own, out: &mut [u32]) -> usize
    ensures emitted { Emitted (implemented_fields own.now.table.now.words.now own.now.ty.0 own.now.edges_first own.now.edges.now own.now.fields_first own.now.fields.now) out.old out.new result }
    ensures upper_bound { result ≤ 3 * most_of_edges }
{
    let n = validate_defined_edges(
        own,
        |edge, interface, out| validate_missing_fields(own, edge, interface, out),
        out,
    );
    let at = used(n, out.len());
    let m = n
        + validate_defined_edges(
            own,
            |edge, interface, out| validate_field_types(own, edge, interface, out),
            &mut out[at..],
        );
    let at = used(m, out.len());
    m + validate_defined_edges(
        own,
        |edge, interface, out| validate_field_arguments(own, edge, interface, out),
        &mut out[at..],
    )
}

// The five loops over the edges; the cells are those of the own fields, or none.
fn validate_each_rule(
    table: &Table,
    implementor: Implementor,
    edges: &[u32],
    fields: &[u32],
    cells: &[u16],
    out: &mut [u32],
) -> usize
    requires own_edges { OwnEdges table.now.words.now table.now.layout implementor.ty.0 implementor.edges_first edges.now }
    requires own_fields { OwnFields table.now.layout implementor.fields_first fields.now cells.now }
    ensures emitted { Emitted (edges_records table.now.words.now implementor.ty.0 implementor.edges_first edges.now implementor.fields_first fields.now) out.old out.new result }
    ensures upper_bound { result ≤ 5 * most_of_edges }
{
    let own = Own {
        table,
        ty: implementor.ty,
        edges_first: implementor.edges_first,
        edges,
        fields_first: implementor.fields_first,
        fields,
        cells,
    };
    let n = validate_implements_interfaces(&own, out);
    let at = used(n, out.len());
    n + validate_implementation_fields(&own, &mut out[at..])
}

// The rules of a type over its edges. Each field that an interface demands is looked for among all of the own, so where there are edges and
// many fields, the own are noted in cells first.
pub fn validate_edges(
    table: &Table,
    implementor: Implementor,
    edges: &[u32],
    fields: &[u32],
    out: &mut [u32],
) -> usize
    requires own_edges { OwnEdges table.now.words.now table.now.layout implementor.ty.0 implementor.edges_first edges.now }
    requires field_part { FieldPart table.now.layout implementor.fields_first fields.now }
    ensures emitted { Emitted (edges_records table.now.words.now implementor.ty.0 implementor.edges_first edges.now implementor.fields_first fields.now) out.old out.new result }
    ensures upper_bound { result ≤ 5 * most_of_edges }
{
    if (edge_rows(edges) == 0) | has_few(fields) {
        return validate_each_rule(table, implementor, edges, fields, &[], out);
    }
    let mut cells = [0; 4096];
    index_fields(fields, &mut cells);
    validate_each_rule(table, implementor, edges, fields, &cells, out)
}
