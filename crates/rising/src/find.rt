// A name among names that rise.
ghost use Rattle.std.specs.Prelude.{◌≡◌};
ghost use Rattle.rows.specs.Search.{contains};
ghost use Rattle.rising.specs.Rising.{Rises};

use table::numbers::NameNo;

// The range in which the name may stand is halved at each look, and a look that meets it ends the search: the library's `binary_search_by` takes every look.
pub fn has(sorted: &[u16], name: NameNo) -> bool
    requires { Rises sorted.now }
    ensures { result ≡ contains sorted.now name.0 }
{
    let mut from = 0;
    let mut to = sorted.len();
    while from < to {
        let middle = from + (to - from) / 2;
        let there = sorted[middle] as u32;
        if there == name.0 {
            return true;
        }
        if there < name.0 {
            from = middle + 1;
        } else {
            to = middle;
        }
    }
    false
}
