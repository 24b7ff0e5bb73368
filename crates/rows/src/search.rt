// Searches in a part, lowest row first.
ghost use Rattle.std.specs.Prelude.{◌≡◌};
ghost use Rattle.rows.specs.Search.{contains};
ghost use Rattle.rows.specs.Parts.{field_rows, field_named, argument_rows, argument_named};
ghost use Rattle.rows.specs.Found.{found_row};

use crate::cells::{argument_name, argument_rows, field_name, field_rows};
use table::numbers::NameNo;

// The name stands in a part of names.
pub fn has_name(names: &[u32], name: NameNo) -> bool
    ensures { result ≡ contains names.now name.0 }
{
    names.contains(&name.0)
}

// The field of the name.
pub fn find_field(fields: &[u32], name: NameNo) -> Option<usize>
    ensures { result ≡ found_row (field_named fields.now name.0) (field_rows fields.now) }
{
    (0..field_rows(fields)).find(|&i| field_name(fields, i) == name)
}

// The first argument of the name.
pub fn find_argument(arguments: &[u32], name: NameNo) -> Option<usize>
    ensures { result ≡ found_row (argument_named arguments.now name.0) (argument_rows arguments.now) }
{
    (0..argument_rows(arguments)).find(|&i| argument_name(arguments, i) == name)
}
