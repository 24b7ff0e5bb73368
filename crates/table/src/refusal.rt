// Document 01, "Refusal numbers": those of a table, which every call makes first, by their names.
ghost use Rattle.std.specs.Prelude.{◌≡◌};
ghost use Rattle.table.specs.Answers.{malformed_number};

#[derive(Clone, Copy, PartialEq, Eq)]
pub enum Malformed {
    // Fewer words than the header has.
    TooFewWords,
    // A count or the text above its limit.
    AboveLimit,
    // Another length than the formula's.
    WrongLength,
    // A name outside the text, that is no Spec Name, or that does not rise.
    BadNames,
    // A word out of its range, ends that do not cut their section, or rows on a kind that may not own them.
    BadWord,
    // A name that stands twice where it may not.
    Twice,
}

// The number that include/lhakvuni.h gives it.
impl From<Malformed> for u32 {
    ghost from_gives = { λ malformed n. n ≡ malformed_number malformed };

    fn from(malformed: Malformed) -> u32 {
        match malformed {
            Malformed::TooFewWords => 1,
            Malformed::AboveLimit => 2,
            Malformed::WrongLength => 3,
            Malformed::BadNames => 4,
            Malformed::BadWord => 5,
            Malformed::Twice => 6,
        }
    }
}
