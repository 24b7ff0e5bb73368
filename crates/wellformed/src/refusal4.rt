// Refusal 4 is the crate name_section's; the bytes of a name are handed on from here.
pub use name_section::name_bytes;
