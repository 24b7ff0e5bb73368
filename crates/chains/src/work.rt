// The work table: three words for each type, in three parts.
ghost use Rattle.std.specs.Prelude.{◌≡◌, ◌*◌, ◌≤◌};
ghost use Rattle.table.specs.Layout.{most_types};
ghost use Rattle.chains.specs.Work.{work_words, counts_at, trail_at};

// The work table for so many types: first their marks, then the counts of their first cycles, last the trail of a walk: from where each type was entered.
#[derive(Clone, Copy)]
pub struct Work {
    pub types: usize,
}

impl Work {
    // The words for each type.
    pub const WORDS: usize = 3;

    // How many words there are.
    pub fn size(self) -> usize
        requires { self.types ≤ most_types }
        ensures { result ≡ work_words * self.types }
    {
        Work::WORDS * self.types
    }

    // Where the counts begin.
    pub fn counts_at(self) -> usize
        ensures { result ≡ counts_at self.types }
    {
        self.types
    }

    // Where the trail begins.
    pub fn trail_at(self) -> usize
        requires { self.types ≤ most_types }
        ensures { result ≡ trail_at self.types }
    {
        2 * self.types
    }
}

// The mark of a type: the word with its row's number.
#[derive(Clone, Copy)]
pub struct Mark(pub u32);

impl Mark {
    // No search has entered the type.
    pub const FREE: Mark = Mark(0);
    // A search has.
    pub const ENTERED: Mark = Mark(1);
    // No closed chain runs through the type, nor through any that it leads to.
    pub const SETTLED: Mark = Mark(2);
}
