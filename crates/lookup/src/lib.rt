// The first argument or field of a name, in one look where there are many.
//
// The problem: a field has up to 16,384 arguments and a type up to 8,192 fields, and a rule looks for each of those that an interface demands
// among the own. A walk for each reads them all as often.
// The idea: the cells of the crate rows (index.rt), one for each name number, tell the first row of a name. They are filled in one pass over the
// rows (arguments.rt, fields.rt). Where there are few rows a walk does, and no cells are handed on. The walk stays the definition.
#![tactic(auto)]

pub mod arguments;
mod cell;
pub mod fields;
