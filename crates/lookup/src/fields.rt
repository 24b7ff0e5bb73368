// The first field of a name.
ghost use Rattle.std.specs.Prelude.{◌≡◌, leb, replicate};
ghost use Rattle.table.specs.Layout.{most_names};
ghost use Rattle.rows.specs.Parts.{field_rows, field_named};
ghost use Rattle.rows.specs.Found.{found_row};
ghost use Rattle.lookup.specs.Cells.{few, FieldsNamed, FieldsTold, FieldsHelped};

use crate::cell::{FEW, found_in};
use rows::cells::{field_name, field_rows};
use rows::index::note_each;
use rows::search::find_field;
use table::numbers::NameNo;

// So few that a walk through them does.
pub fn has_few(fields: &[u32]) -> bool
    ensures { result ≡ leb (field_rows fields.now) few }
{
    field_rows(fields) <= FEW
}

// Notes every field in the cell of its name.
pub fn index_fields(fields: &[u32], cells: &mut [u16])
    requires fields_named { FieldsNamed fields.now }
    requires cells_value { cells.old ≡ replicate most_names 0 }
    ensures { FieldsTold fields.now cells.new }
{
    note_each(field_rows(fields), |i| field_name(fields, i), cells);
}

// From the cells where there are any.
pub fn look_up_field(fields: &[u32], cells: &[u16], name: NameNo) -> Option<usize>
    requires { FieldsHelped fields.now cells.now }
    ensures { result ≡ found_row (field_named fields.now name.0) (field_rows fields.now) }
{
    if cells.is_empty() {
        find_field(fields, name)
    } else {
        found_in(cells, name)
    }
}
