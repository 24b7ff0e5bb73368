// The edges and the members of a table in one array, for the rules that look both up.
ghost use Rattle.std.specs.Prelude.{◌≡◌, ◌<◌, length};
ghost use Rattle.rows.specs.Search.{contains};
ghost use Rattle.rows.specs.Parts.{edges_of, members_of};
ghost use Rattle.rows.specs.Readable.{SoundRows};
ghost use Rattle.rising.specs.Runs.{EdgesApart, MembersApart};
ghost use Rattle.rising.specs.Lists.{list_cells, Sorted};

use crate::runs::{has_edge_named, has_member_named, sort_edges, sort_members};
use table::layout::Layout;
use table::numbers::{NameNo, TypeRow};

// The members stand behind the most edges.
const MEMBERS: usize = 4096;

// Writes both.
pub fn sort_lists(words: &[u32], l: Layout, lists: &mut [u16])
    requires sound_rows { SoundRows words.now l }
    requires edges_apart { EdgesApart words.now × MembersApart words.now }
    requires lists_len { length lists.old ≡ list_cells }
    ensures { Sorted words.now l lists.new }
{
    let (edges, members) = lists.split_at_mut(MEMBERS);
    sort_edges(words, l, edges);
    sort_members(words, l, members);
}

// The name is that of an edge of type t.
pub fn is_edge_of(words: &[u32], l: Layout, lists: &[u16], name: NameNo, t: TypeRow) -> bool
    requires sorted { Sorted words.now l lists.now }
    requires t_lt_types { t.0 < l.types }
    ensures { result ≡ contains (edges_of words.now t.0) name.0 }
{
    has_edge_named(words, l, &lists[..MEMBERS], t, name)
}

// The name is that of a member of type t.
pub fn is_member_of(words: &[u32], l: Layout, lists: &[u16], name: NameNo, t: TypeRow) -> bool
    requires sorted { Sorted words.now l lists.now }
    requires t_lt_types { t.0 < l.types }
    ensures { result ≡ contains (members_of words.now t.0) name.0 }
{
    has_member_named(words, l, &lists[MEMBERS..], t, name)
}
