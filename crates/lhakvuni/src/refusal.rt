// Document 01, "Refusal numbers": why a call is refused. The table's refusals come first; the others are those of single calls.
ghost use Rattle.std.specs.Prelude.{◌≡◌};
ghost use Rattle.lhakvuni.specs.Answers.{refusal_number};
ghost use Rattle.lhakvuni.specs.declared.refusal.Refusal.TheVariants.{Malformed as Refused};

use table::refusal::Malformed;

#[derive(Clone, Copy, PartialEq, Eq)]
pub enum Refusal {
    // One of the table's.
    Malformed(Malformed),
    // First cycle asked for no type, or for one that is no input object.
    NoInputObject,
    // Evidence that has not six words for each type.
    WrongEvidence,
    // A work table that is too short.
    ShortWork,
    // An output that is too short, and needs so many words.
    ShortOut(usize),
}

impl From<Malformed> for Refusal {
    ghost from_gives = { λ malformed refusal. refusal ≡ Refused malformed };

    fn from(malformed: Malformed) -> Refusal {
        Refusal::Malformed(malformed)
    }
}

// The number that include/lhakvuni.h gives it.
impl From<Refusal> for u32 {
    ghost from_gives = { λ refusal n. n ≡ refusal_number refusal };

    fn from(refusal: Refusal) -> u32 {
        match refusal {
            Refusal::Malformed(malformed) => u32::from(malformed),
            Refusal::NoInputObject => 7,
            Refusal::WrongEvidence => 8,
            Refusal::ShortWork => 9,
            Refusal::ShortOut(_) => 10,
        }
    }
}
