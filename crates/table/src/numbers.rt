// The two kinds of number that must never be mixed up: a number of a name, and a number of a type. Both are u32 words of a table, so each is a
// type of its own, is compared with its own kind alone, and has its own NONE.
ghost use Rattle.std.specs.Prelude.{◌≡◌};

use crate::layout::Layout;

// A row of the name section.
#[derive(Clone, Copy, PartialEq, Eq)]
pub struct NameNo(pub u32);

impl NameNo {
    // A root that there is not.
    pub const NONE: NameNo = NameNo(Layout::NONE);

    pub fn index(self) -> usize
        ensures { result ≡ self.0 }
    {
        self.0 as usize
    }
}

// A row of the type section.
#[derive(Clone, Copy, PartialEq, Eq)]
pub struct TypeRow(pub u32);

impl TypeRow {
    // A record about no type, and a leader that there is not.
    pub const NONE: TypeRow = TypeRow(Layout::NONE);

    pub fn index(self) -> usize
        ensures { result ≡ self.0 }
    {
        self.0 as usize
    }
}
