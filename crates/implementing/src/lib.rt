// A type against the interfaces that it names: records 3 at edges, 6, 8 to 13.
//
// The problem: a type that has dropped an argument which its interface demands once showed somebody else's board. Each edge of a type, each
// field of that edge's interface and each argument of that field must be held against the type's own.
// The idea: document 01 asks five loops over the edges, one after the other, and three of them go on over the interface's fields. One
// loop over the edges that are defined serves four of them: it is handed what a rule lists for an edge's row and its interface.
// The loops over interface fields stand apart, in the crate `matching`, and so does the comparison of an own field with the interface's, in the
// crate `comparing`.
#![tactic(auto)]

pub mod implementor;
pub mod implements_interfaces;
pub mod interface;
pub mod recursive_interface;
