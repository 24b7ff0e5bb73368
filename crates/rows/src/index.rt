// A type by its name, in one look.
//
// The problem: a rule looks types up by their names many times a call, and a walk through the type section reads the name of every row
// until it finds one. Type rows stand in any order.
// The idea: there are at most 4,096 names, so a call keeps a cell for each of them in an array of its own, and notes there the row of the
// type with that name, plus 1; 0 says that no type has it. The walk stays the definition: `type_named` of specs/Types.antt.
ghost use Rattle.std.specs.Prelude.{◌≡◌, ℕ, ◌<◌, ◌≤◌, length, replicate};
ghost use Rattle.table.specs.Layout.{most_names, most_arguments};
ghost use Rattle.rows.specs.Readable.{SoundRows};
ghost use Rattle.rows.specs.Types.{type_named, found_at};
ghost use Rattle.rows.specs.Index.{noted, row_told, Tells, Indexed};

use crate::types::type_name;
use table::layout::Layout;
use table::numbers::{NameNo, TypeRow};

// Notes a row in the cell of its name, where none is noted yet.
pub fn note(cells: &mut [u16], name: NameNo, row: u32)
    requires name_in_bounds { name.0 < length cells.old }
    requires row_lt_most_arguments { row < most_arguments }
    ensures { cells.new ≡ noted cells.old name.0 row }
{
    let at = name.index();
    if cells[at] == 0 {
        cells[at] = (row + 1) as u16;
    }
}

// Notes every row in the cell of its name.
pub fn note_each<F: Fn(usize) -> NameNo>(rows: usize, name_of: F, cells: &mut [u16])
    requires few { rows ≤ most_arguments }
    requires callable { (i : ℕ) → i < rows → F.pre name_of i }
    requires names_in_bounds { (i : ℕ) (name : _) → i < rows → F.post name_of i name → name.0 < most_names }
    requires cells_value { cells.old ≡ replicate most_names 0 }
    ensures { (name : ℕ → ℕ) → ((i : ℕ) (n : _) → i < rows → F.post name_of i n → n.0 ≡ name i) → Tells name rows cells.new }
{
    for i in 0..rows {
        note(cells, name_of(i), i as u32);
    }
}

// Notes every type.
pub fn index_types(words: &[u32], l: Layout, cells: &mut [u16])
    requires sound_rows { SoundRows words.now l }
    requires cells_value { cells.old ≡ replicate most_names 0 }
    ensures { Indexed words.now l cells.new }
{
    note_each(l.types, |t| type_name(words, l, TypeRow(t as u32)), cells);
}

// The row that a cell tells.
pub fn row_in(cell: u16) -> Option<TypeRow>
    ensures { result ≡ row_told cell }
{
    let row = cell.checked_sub(1)?;
    Some(TypeRow(u32::from(row)))
}

// The type of the name. A name without a cell is found nowhere.
pub fn look_up(words: &[u32], l: Layout, index: &[u16], name: NameNo) -> Option<TypeRow>
    requires { Indexed words.now l index.now }
    ensures { result ≡ found_at (type_named words.now name.0) l.types }
{
    row_in(*index.get(name.index())?)
}
