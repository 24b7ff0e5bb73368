// What the judge finds.
use table::numbers::TypeRow;

// The first type row that breaks a rule, with its lowest rule.
#[derive(Clone, Copy, PartialEq, Eq)]
pub struct Broken {
    pub row: TypeRow,
    pub rule: u32,
}
