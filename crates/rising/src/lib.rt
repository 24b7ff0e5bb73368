// Whether a name stands among the edges of a type or the members of a union, in a few looks.
//
// The problem: a rule asks it for every pair of fields that it compares, hundreds of thousands of times a call, and the plain search (`has_name` of
// the crate rows) reads up to 4,096 names for each answer. Names stand in a run in any order, but none of them twice (refusal 6).
//
// The idea: a call keeps the names of all runs in an array of its own, those of each run in rising order and where the run stands in its section
// (runs.rt). A name is then found by halving the range in which it may stand, in at most 13 looks (find.rt). A run is sorted in one pass over its
// names and one over a set of bits, one for each name that there can be (sort.rt): a set gives its numbers back in rising order.
//
// The plain search stays the definition: `has_edge_named` and `has_member_named` promise what it says of the run.
#![tactic(auto)]

pub mod find;
pub mod lists;
pub mod runs;
pub mod sort;
