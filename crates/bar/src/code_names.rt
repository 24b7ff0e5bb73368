// The names of the codes, as document 01 has them; 19 has none there, and bears the Rust's.

// By the code's number; 0 is no code's.
const NAMES: [&str; 22] = [
    "?",
    "QueryRootOperationType",
    "RootOperationObjectType",
    "UndefinedDefinition",
    "DuplicateRootOperationType",
    "ReservedName",
    "RecursiveInterfaceDefinition",
    "EmptyFieldSet",
    "TransitiveImplementedInterfaces",
    "MissingInterfaceField",
    "InvalidImplementationFieldType",
    "MissingInterfaceFieldArgument",
    "InvalidImplementationFieldArgumentType",
    "ExtraRequiredImplementationFieldArgument",
    "UnionMemberObjectType",
    "EmptyMemberSet",
    "EmptyValueSet",
    "RecursiveInputObjectDefinition",
    "InputType",
    "OutputType",
    "UniqueInputValue",
    "EmptyInputValueSet",
];

pub(crate) fn name_of(code: u32) -> &'static str {
    NAMES.get(code as usize).copied().unwrap_or("?")
}
