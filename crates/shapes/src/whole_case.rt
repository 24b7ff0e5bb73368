// Document 01's whole case: interface Node { id: ID! }, type Board implements Node { id: ID }. Its text is BoardIDNodeid.
ghost use Rattle.std.specs.Prelude.{◌≡◌};
ghost use Rattle.table.specs.Tables.{in_row};
ghost use Rattle.wellformed.specs.Examples.{board_rows, board_words};
ghost use Rattle.building.specs.Building.{Added};

use building::{Counts, Ends, edge_row, field_row, header, name_row, no_roots, type_row};
use names::wrap::Wrap;
use table::kinds::Kind;
use table::layout::Layout;
use table::numbers::NameNo;

const BOARD: NameNo = NameNo(0);

const ID: NameNo = NameNo(1);

const NODE: NameNo = NameNo(2);

const FIELD_ID: NameNo = NameNo(3);

pub const WORDS: usize = Layout::HEADER
    + 4 * Layout::NAME
    + 2 * Layout::TYPE
    + Layout::EDGE
    + 2 * Layout::FIELD
    + Layout::ROOTS;

fn write_names(words: &mut [u32], at: usize) -> usize
    ensures { Added at (in_row board_rows.names) words.old words.new result }
{
    let at = name_row(words, at, 0, 5);
    let at = name_row(words, at, 5, 2);
    let at = name_row(words, at, 7, 4);
    name_row(words, at, 11, 2)
}

fn write_types(words: &mut [u32], at: usize) -> usize
    ensures { Added at (in_row board_rows.types) words.old words.new result }
{
    let node = Ends {
        fields: 1,
        ..Ends::ZERO
    };
    let board = Ends {
        edges: 1,
        fields: 2,
        ..Ends::ZERO
    };
    let at = type_row(words, at, NODE, u32::from(Kind::Interface), 0, node);
    type_row(words, at, BOARD, u32::from(Kind::Object), 0, board)
}

fn write_fields(words: &mut [u32], at: usize) -> usize
    ensures { Added at (in_row board_rows.fields) words.old words.new result }
{
    let at = field_row(words, at, FIELD_ID, ID, Wrap::REQUIRED, 0, 0);
    field_row(words, at, FIELD_ID, ID, Wrap::NULLABLE, 0, 0)
}

pub fn table() -> [u32; WORDS]
    ensures { result ≡ board_words }
{
    let mut words = [0; WORDS];
    let counts = Counts {
        names: 4,
        types: 2,
        edges: 1,
        fields: 2,
        ..Counts::ZERO
    };
    let at = header(&mut words, counts);
    let at = write_names(&mut words, at);
    let at = write_types(&mut words, at);
    let at = edge_row(&mut words, at, NODE);
    let at = write_fields(&mut words, at);
    no_roots(&mut words, at);
    words
}
