// Evidence: the marks of the types that lie on closed chains, with what a reader needs to believe them.
//
// Whether a closed chain runs through an input object takes a search to find out, and a service that we don't trust may have made
// it. It hands over six words a type, and seven rules that look at one row and its neighbours decide. A marked row names a leader and a
// field that brings it one step closer to the leader, and another by which one comes from there: so it lies on a closed chain. Numbers never
// rise along a chain field, and fall strictly from an unmarked row: so no closed chain runs through that one.
//
// This crate has the definitions, in specs/, and the theorems, which proofs/Evidence lists; and what the judge and the producer
// both read: the words of a row, and the chain fields of a type. Words of a table that we don't trust are never an index: past
// the end stands 0.
#![tactic(auto)]

pub mod chain;
pub mod judged;
pub mod row;
