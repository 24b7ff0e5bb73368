// An own field against the interface's field of its name: its type, and its arguments.
//
// The problem: a type that has dropped an argument which its interface demands once showed somebody else's board.
// The idea: the comparison of two field types (field_types.rt, record 10's test) goes one layer per call, the list layers left falling, then by the names.
// Arguments (implementation_argument.rt) are held against each other in two loops: each of the interface's, 11 or 12, and each own, 13. Where both
// fields have many, those of the other field are noted in cells first (the crate `lookup`). Which edges and which fields are compared is the crate
// `matching`'s to say.
#![tactic(auto)]

pub mod field_types;
pub mod implementation_argument;
