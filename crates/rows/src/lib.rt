// Rows as the layers above read them.
//
// The problem: a number of a name and a number of a type are both u32 words, and a rule that takes one for the other is wrong in silence.
// And the rows of a type are a run in the middle of the table, known only by the ends of two type rows.
// The idea: both are types of their own from the table on (`NameNo`, `TypeRow`). The run of rows that belongs to a type or a field is handed on as a part of the
// slice, with what a rule may count on in it (`NamePart`, `FieldPart`, `ArgumentPart`), so that a rule is defined and proved over its
// part and needs no index arithmetic. All five runs are one function, `run_of`. Finding a type by its name gives its one row or nothing.
#![tactic(auto)]

pub mod cells;
pub mod index;
pub mod parts;
pub mod search;
pub mod spelling;
pub mod types;
