// Chains of input objects, and the first cycle of a type (the Rust's validation/input_object.rs, FindRecursiveInputValue).
//
// The problem: a chain field is a non-null field of an input object that names an input object, so a value of the one needs a
// value of the other. Find the first cycle of a type: of the closed chains from it that visit no type twice, the least by field rows.
// The idea: walk the fields in row order, and mark each type that is entered, so that none is entered twice. A type that was walked
// to its end leads only to marked types other than the start. So a way back that goes through it goes through a type that the walk
// still stands on, and would visit that type twice: nothing is lost by never entering it again, and the first way back is the least.
// A search enters each type once and reads each field once, where walking each way anew takes exponentially many steps. A type that leads
// to marked types only, none of them the start, is no way back whoever marked them. So types that lead to no closed chain at all are marked once for
// all searches (settle.rt), and none enters them.
#![tactic(auto)]

pub mod cycle;
pub mod settle;
pub mod walk;
pub mod work;
