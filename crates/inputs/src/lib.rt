// Names, arguments and input objects: records 5, 17, 3 or 18, 20 and 21 (the Rust's input_object.rs). Each rule is lent the schema or its
// table (the crate `lent`), the part of the words that it speaks of with the part's first row, and the tail of the output from the next free
// row. It answers how many records it has, and `Emitted` says what then stands in the output. The other rules, in the crate `rules`, are
// written in the same way.
#![tactic(auto)]

pub mod input_object;
pub mod type_system_name;
