// What the cell of a name tells.
ghost use Rattle.std.specs.Prelude.{◌≡◌, get_or};
ghost use Rattle.lookup.specs.Cells.{found_cell};

use table::numbers::NameNo;

// So many rows are walked through: there are 4,096 cells to clear.
pub const FEW: usize = 16;

// The row that a cell tells.
#[tactic(auto, unfolding(crate::specs::Cells::found_cell))]
fn row_in(cell: u16) -> Option<usize>
    ensures { result ≡ found_cell cell }
{
    let row = cell.checked_sub(1)?;
    Some(usize::from(row))
}

// The row that the cell of a name tells. A name without a cell is found nowhere.
pub fn found_in(cells: &[u16], name: NameNo) -> Option<usize>
    ensures { result ≡ found_cell (get_or cells.now name.0 0) }
{
    row_in(*cells.get(name.index())?)
}
