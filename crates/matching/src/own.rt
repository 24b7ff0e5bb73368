// What a type has of its own, and an interface that it is held against.
ghost use Rattle.std.specs.Prelude.{◌≡◌, ◌<◌};
ghost use Rattle.table.specs.Layout.{fields_start};
ghost use Rattle.rows.specs.Parts.{fields_of};
ghost use Rattle.rows.specs.Readable.{FieldPart};
ghost use Rattle.matching.specs.Own.{OwnEdges, OwnFields};

use lent::Table;
use rows::parts::{fields_of, fields_start};
use table::numbers::TypeRow;

// A type that implements interfaces: its row, and its edges and fields with the first row of each.
#[derive(Clone, Copy)]
pub struct Own<'a> {
    pub table: &'a Table<'a>,
    pub ty: TypeRow,
    pub edges_first: usize,
    pub edges: &'a [u32],
    pub fields_first: usize,
    pub fields: &'a [u32],
    // Cells that tell the fields, or none.
    pub cells: &'a [u16],
    ghost own_edges: { OwnEdges table.now.words.now table.now.layout ty.0 edges_first edges.now },
    ghost own_fields: { OwnFields table.now.layout fields_first fields.now cells.now },
}

// An interface: the row of the edge that leads there, and its fields with their first row.
#[derive(Clone, Copy)]
pub struct Interface<'a> {
    pub edge: u32,
    pub first: usize,
    pub fields: &'a [u32],
}

// The interface of a type row, behind an edge.
pub fn interface_at<'a>(table: &Table<'a>, edge: u32, t: TypeRow) -> Interface<'a>
    requires { t.0 < table.now.layout.types }
    ensures edge_is { result.edge ≡ edge }
    ensures first_is { result.first ≡ fields_start table.now.words.now t.0 }
    ensures fields_are { result.fields.now ≡ fields_of table.now.words.now t.0 }
    ensures field_part { FieldPart table.now.layout result.first result.fields.now }
{
    let words = table.words;
    Interface {
        edge,
        first: fields_start(words, table.layout, t),
        fields: fields_of(words, table.layout, t),
    }
}
