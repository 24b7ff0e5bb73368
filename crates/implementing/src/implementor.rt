// The numbers that are handed in together.
use table::numbers::TypeRow;

// A type that implements interfaces: its row, and the first rows of its edges and of its fields.
#[derive(Clone, Copy)]
pub struct Implementor {
    pub ty: TypeRow,
    pub edges_first: usize,
    pub fields_first: usize,
}
