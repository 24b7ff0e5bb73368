// The fields that an interface demands, against a type's own: records 9 to 13.
//
// The problem: each field of an interface must be there in a type that implements it, with a type that does for the interface's and with its
// arguments. Document 01 asks these in three loops over the edges, each over the interface's fields.
// The idea: a rule says what it lists for one field of the interface, and is handed to the loop of the crate `records` over all of them. What the type
// has of its own is one value (`Own`): its parts of the table, with what can be counted on in them. The
// own field of a name is found in one look where a type has many (the crate `lookup`). What two fields of a name are held to is the crate
// `comparing`'s to say, and which interfaces the crate `implementing`'s.
#![tactic(auto)]

pub mod implementation_field;
pub mod own;
