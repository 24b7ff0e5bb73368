// Whether a table is well-formed: the table's refusals.
//
// The problem: a table is any slice of u32 words. Whether it is well-formed must be found without ever indexing by a word that is not yet
// checked, and the first refusal in document 01's order must be named.
// The idea: the header, the limits and the length come first (`Laid`); from then on every row of every section lies within the slice, and a test
// of a section is one loop over a column (crates/columns; refusal 4 is crates/name_section). Ends are checked before the runs that they cut
// are read.
// What a well-formed table is good for is one record of facts, `Sound` (specs/Sound.antt): refusal 0 gives it, and it gives refusal 0.
#![tactic(auto)]

pub mod check;
pub mod refusal4;
pub mod refusal5;
pub mod refusal6;

pub use check::check_table;
