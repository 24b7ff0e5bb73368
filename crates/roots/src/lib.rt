// The roots of a schema: records 1 to 4.
//
// The problem: query, mutation and subscription each name a type, or none. A query must be there, each root must be an object of this table, and no two
// may be the same.
// The idea: three roots are few, so each is looked up by its name and held against those before it.
#![tactic(auto)]

pub mod schema;
