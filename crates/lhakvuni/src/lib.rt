// Lhakvuni: a GraphQL schema, composed by somebody else, is checked before anything is opened through it.
//
// The problem: a schema is a table of numbers, and a wrong one must never pass, read out of bounds, or leave marks behind for the next call.
// So every call takes any bytes and any words, keeps nothing, and says for all of them what it answers and what each lent slice then holds
// (specs/Promise.antt, specs/Calls.antt). Nothing is asked of what the work table and the output held before.
// The idea: check the table by its refusals, and only then read rows by their numbers; write the work words that the call uses before it
// reads them, and clear them after; run the rules over an empty part of the output first, to learn how many rows there are, and over the output only if they fit.
#![tactic(auto)]

pub mod c;
pub mod calls;
pub mod judging;
pub mod making;
pub mod refusal;

pub use calls::{check_table, first_cycle, records};
pub use evidence::judged::Broken;
pub use judging::check_evidence;
pub use making::make_evidence;
pub use refusal::Refusal;
pub use table::refusal::Malformed;
