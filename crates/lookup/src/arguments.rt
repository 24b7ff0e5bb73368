// The first argument of a name.
ghost use Rattle.std.specs.Prelude.{◌≡◌, leb, replicate};
ghost use Rattle.table.specs.Layout.{most_names};
ghost use Rattle.rows.specs.Parts.{argument_rows, argument_named};
ghost use Rattle.rows.specs.Found.{found_row};
ghost use Rattle.lookup.specs.Cells.{few, ArgumentsNamed, ArgumentsTold, ArgumentsHelped};

use crate::cell::{FEW, found_in};
use rows::cells::{argument_name, argument_rows};
use rows::index::note_each;
use rows::search::find_argument;
use table::numbers::NameNo;

// So few that a walk through them does.
pub fn has_few(arguments: &[u32]) -> bool
    ensures { result ≡ leb (argument_rows arguments.now) few }
{
    argument_rows(arguments) <= FEW
}

// Notes every argument in the cell of its name.
pub fn index_arguments(arguments: &[u32], cells: &mut [u16])
    requires arguments_named { ArgumentsNamed arguments.now }
    requires cells_value { cells.old ≡ replicate most_names 0 }
    ensures { ArgumentsTold arguments.now cells.new }
{
    note_each(
        argument_rows(arguments),
        |i| argument_name(arguments, i),
        cells,
    );
}

// From the cells where there are any.
pub fn look_up_argument(arguments: &[u32], cells: &[u16], name: NameNo) -> Option<usize>
    requires { ArgumentsHelped arguments.now cells.now }
    ensures { result ≡ found_row (argument_named arguments.now name.0) (argument_rows arguments.now) }
{
    if cells.is_empty() {
        find_argument(arguments, name)
    } else {
        found_in(cells, name)
    }
}
