// Record rows: document 01, "Records". Each of the 21 records has a constructor named after the Rust's DiagnosticData, and `put` writes a
// row at the front of the output that it is lent, if it fits. One code path counts and writes: a rule is lent the tail of the output
// from the next free row, and answers how many rows it has, fitting or not. `Emitted` of specs/Records.antt says what that leaves.
#![tactic(auto)]

ghost use Rattle.std.specs.Prelude.{◌≡◌, ℕ, List, ◌∷◌, [], ◌*◌, ◌≤◌, ◌<◌, min};
ghost use Rattle.records.specs.Records.{Emitted, each, row_words, countable};
ghost use Rattle.records.specs.Each.{most_rows, most_of_row, Lists, AtMost};
ghost use Rattle.records.specs.declared.Record.{Record as Row};
ghost use Rattle.records.specs.Rows.{row, query_root_operation_type, root_operation_object_type, undefined_definition, duplicate_root_operation_type, reserved_name, recursive_interface_definition, empty_field_set, transitive_implemented_interfaces, missing_interface_field, invalid_implementation_field_type, missing_interface_field_argument, invalid_implementation_field_argument_type, extra_required_implementation_field_argument, union_member_object_type, empty_member_set, empty_value_set, recursive_input_object_definition, input_type, output_type, unique_input_value, empty_input_value_set};

use table::layout::Layout;
use table::numbers::{NameNo, TypeRow};

// A record's code, document 01's number.
#[derive(Clone, Copy, PartialEq, Eq)]
pub struct Code(pub u32);

impl Code {
    pub const QUERY_ROOT_OPERATION_TYPE: Code = Code(1);

    pub const ROOT_OPERATION_OBJECT_TYPE: Code = Code(2);

    pub const UNDEFINED_DEFINITION: Code = Code(3);

    pub const DUPLICATE_ROOT_OPERATION_TYPE: Code = Code(4);

    pub const RESERVED_NAME: Code = Code(5);

    pub const RECURSIVE_INTERFACE_DEFINITION: Code = Code(6);

    pub const EMPTY_FIELD_SET: Code = Code(7);

    pub const TRANSITIVE_IMPLEMENTED_INTERFACES: Code = Code(8);

    pub const MISSING_INTERFACE_FIELD: Code = Code(9);

    pub const INVALID_IMPLEMENTATION_FIELD_TYPE: Code = Code(10);

    pub const MISSING_INTERFACE_FIELD_ARGUMENT: Code = Code(11);

    pub const INVALID_IMPLEMENTATION_FIELD_ARGUMENT_TYPE: Code = Code(12);

    pub const EXTRA_REQUIRED_IMPLEMENTATION_FIELD_ARGUMENT: Code = Code(13);

    pub const UNION_MEMBER_OBJECT_TYPE: Code = Code(14);

    pub const EMPTY_MEMBER_SET: Code = Code(15);

    pub const EMPTY_VALUE_SET: Code = Code(16);

    pub const RECURSIVE_INPUT_OBJECT_DEFINITION: Code = Code(17);

    pub const INPUT_TYPE: Code = Code(18);

    pub const OUTPUT_TYPE: Code = Code(19);

    pub const UNIQUE_INPUT_VALUE: Code = Code(20);

    pub const EMPTY_INPUT_VALUE_SET: Code = Code(21);
}

// What a row in a record is a row of.
#[derive(Clone, Copy, PartialEq, Eq)]
pub struct Place(pub u32);

impl Place {
    pub const ROOT: Place = Place(0);

    pub const EDGE: Place = Place(1);

    pub const FIELD: Place = Place(2);

    pub const ARGUMENT: Place = Place(3);

    pub const INPUT_FIELD: Place = Place(4);

    pub const MEMBER: Place = Place(5);

    pub const VALUE: Place = Place(6);

    pub const TYPE_NAME: Place = Place(7);
}

// A word of a record behind the type: a row, a name, a place or a number, or NONE where there is nothing to say.
#[derive(Clone, Copy, PartialEq, Eq)]
pub struct Word(pub u32);

impl Word {
    pub const NONE: Word = Word(Layout::NONE);
}

// A record's words, in their order.
#[derive(Clone, Copy, PartialEq, Eq)]
pub struct Record {
    pub code: Code,
    pub ty: TypeRow,
    pub a: Word,
    pub b: Word,
    pub c: Word,
}

impl Record {
    pub const WORDS: usize = 5;

    // The one constructor, from which the 21 are made.
    fn row(code: Code, ty: TypeRow, a: Word, b: Word, c: Word) -> Record
        ensures { result ≡ row code.0 ty.0 a.0 b.0 c.0 }
    {
        Record { code, ty, a, b, c }
    }

    pub fn query_root_operation_type() -> Record
        ensures { result ≡ query_root_operation_type }
    {
        Record::row(
            Code::QUERY_ROOT_OPERATION_TYPE,
            TypeRow::NONE,
            Word::NONE,
            Word::NONE,
            Word::NONE,
        )
    }

    pub fn root_operation_object_type(operation: u32, name: NameNo) -> Record
        ensures { result ≡ root_operation_object_type operation name.0 }
    {
        Record::row(
            Code::ROOT_OPERATION_OBJECT_TYPE,
            TypeRow::NONE,
            Word(operation),
            Word(name.0),
            Word::NONE,
        )
    }

    pub fn undefined_definition(ty: TypeRow, name: NameNo, place: Place, row: u32) -> Record
        ensures { result ≡ undefined_definition ty.0 name.0 place.0 row }
    {
        Record::row(
            Code::UNDEFINED_DEFINITION,
            ty,
            Word(name.0),
            Word(place.0),
            Word(row),
        )
    }

    pub fn duplicate_root_operation_type(operation: u32, name: NameNo, first: u32) -> Record
        ensures { result ≡ duplicate_root_operation_type operation name.0 first }
    {
        Record::row(
            Code::DUPLICATE_ROOT_OPERATION_TYPE,
            TypeRow::NONE,
            Word(operation),
            Word(name.0),
            Word(first),
        )
    }

    pub fn reserved_name(ty: TypeRow, name: NameNo, place: Place, row: u32) -> Record
        ensures { result ≡ reserved_name ty.0 name.0 place.0 row }
    {
        Record::row(
            Code::RESERVED_NAME,
            ty,
            Word(name.0),
            Word(place.0),
            Word(row),
        )
    }

    pub fn recursive_interface_definition(ty: TypeRow, edge: u32) -> Record
        ensures { result ≡ recursive_interface_definition ty.0 edge }
    {
        Record::row(
            Code::RECURSIVE_INTERFACE_DEFINITION,
            ty,
            Word(edge),
            Word::NONE,
            Word::NONE,
        )
    }

    pub fn empty_field_set(ty: TypeRow) -> Record
        ensures { result ≡ empty_field_set ty.0 }
    {
        Record::row(
            Code::EMPTY_FIELD_SET,
            ty,
            Word::NONE,
            Word::NONE,
            Word::NONE,
        )
    }

    pub fn transitive_implemented_interfaces(
        ty: TypeRow,
        via_edge: u32,
        interface_edge: u32,
    ) -> Record
        ensures { result ≡ transitive_implemented_interfaces ty.0 via_edge interface_edge }
    {
        Record::row(
            Code::TRANSITIVE_IMPLEMENTED_INTERFACES,
            ty,
            Word(via_edge),
            Word(interface_edge),
            Word::NONE,
        )
    }

    pub fn missing_interface_field(ty: TypeRow, edge: u32, interface_field: u32) -> Record
        ensures { result ≡ missing_interface_field ty.0 edge interface_field }
    {
        Record::row(
            Code::MISSING_INTERFACE_FIELD,
            ty,
            Word(edge),
            Word(interface_field),
            Word::NONE,
        )
    }

    pub fn invalid_implementation_field_type(
        ty: TypeRow,
        edge: u32,
        interface_field: u32,
        own_field: u32,
    ) -> Record
        ensures { result ≡ invalid_implementation_field_type ty.0 edge interface_field own_field }
    {
        Record::row(
            Code::INVALID_IMPLEMENTATION_FIELD_TYPE,
            ty,
            Word(edge),
            Word(interface_field),
            Word(own_field),
        )
    }

    pub fn missing_interface_field_argument(
        ty: TypeRow,
        edge: u32,
        own_field: u32,
        interface_argument: u32,
    ) -> Record
        ensures { result ≡ missing_interface_field_argument ty.0 edge own_field interface_argument }
    {
        Record::row(
            Code::MISSING_INTERFACE_FIELD_ARGUMENT,
            ty,
            Word(edge),
            Word(own_field),
            Word(interface_argument),
        )
    }

    pub fn invalid_implementation_field_argument_type(
        ty: TypeRow,
        edge: u32,
        interface_argument: u32,
        own_argument: u32,
    ) -> Record
        ensures { result ≡ invalid_implementation_field_argument_type ty.0 edge interface_argument own_argument }
    {
        Record::row(
            Code::INVALID_IMPLEMENTATION_FIELD_ARGUMENT_TYPE,
            ty,
            Word(edge),
            Word(interface_argument),
            Word(own_argument),
        )
    }

    pub fn extra_required_implementation_field_argument(
        ty: TypeRow,
        edge: u32,
        interface_field: u32,
        own_argument: u32,
    ) -> Record
        ensures { result ≡ extra_required_implementation_field_argument ty.0 edge interface_field own_argument }
    {
        Record::row(
            Code::EXTRA_REQUIRED_IMPLEMENTATION_FIELD_ARGUMENT,
            ty,
            Word(edge),
            Word(interface_field),
            Word(own_argument),
        )
    }

    pub fn union_member_object_type(ty: TypeRow, member: u32) -> Record
        ensures { result ≡ union_member_object_type ty.0 member }
    {
        Record::row(
            Code::UNION_MEMBER_OBJECT_TYPE,
            ty,
            Word(member),
            Word::NONE,
            Word::NONE,
        )
    }

    pub fn empty_member_set(ty: TypeRow) -> Record
        ensures { result ≡ empty_member_set ty.0 }
    {
        Record::row(
            Code::EMPTY_MEMBER_SET,
            ty,
            Word::NONE,
            Word::NONE,
            Word::NONE,
        )
    }

    pub fn empty_value_set(ty: TypeRow) -> Record
        ensures { result ≡ empty_value_set ty.0 }
    {
        Record::row(
            Code::EMPTY_VALUE_SET,
            ty,
            Word::NONE,
            Word::NONE,
            Word::NONE,
        )
    }

    pub fn recursive_input_object_definition(ty: TypeRow, fields: u32) -> Record
        ensures { result ≡ recursive_input_object_definition ty.0 fields }
    {
        Record::row(
            Code::RECURSIVE_INPUT_OBJECT_DEFINITION,
            ty,
            Word(fields),
            Word::NONE,
            Word::NONE,
        )
    }

    pub fn input_type(ty: TypeRow, place: Place, row: u32) -> Record
        ensures { result ≡ input_type ty.0 place.0 row }
    {
        Record::row(Code::INPUT_TYPE, ty, Word(place.0), Word(row), Word::NONE)
    }

    pub fn output_type(ty: TypeRow, field: u32) -> Record
        ensures { result ≡ output_type ty.0 field }
    {
        Record::row(Code::OUTPUT_TYPE, ty, Word(field), Word::NONE, Word::NONE)
    }

    pub fn unique_input_value(ty: TypeRow, first: u32, again: u32) -> Record
        ensures { result ≡ unique_input_value ty.0 first again }
    {
        Record::row(
            Code::UNIQUE_INPUT_VALUE,
            ty,
            Word(first),
            Word(again),
            Word::NONE,
        )
    }

    pub fn empty_input_value_set(ty: TypeRow) -> Record
        ensures { result ≡ empty_input_value_set ty.0 }
    {
        Record::row(
            Code::EMPTY_INPUT_VALUE_SET,
            ty,
            Word::NONE,
            Word::NONE,
            Word::NONE,
        )
    }
}

// Where the tail of an output of len words starts, after n rows: its end, where they do not fit.
pub fn used(n: usize, len: usize) -> usize
    requires { n < countable }
    ensures { result ≡ min (row_words * n) len }
{
    len.min(Record::WORDS * n)
}

// One row at the front of the output, if it fits. It counts either way.
pub fn put(out: &mut [u32], r: Record) -> usize
    ensures emitted { Emitted (r ∷ []) out.old out.new result }
    ensures upper_bound { result ≤ 1 }
{
    if Record::WORDS <= out.len() {
        out[0] = r.code.0;
        out[1] = r.ty.0;
        out[2] = r.a.0;
        out[3] = r.b.0;
        out[4] = r.c.0;
    }
    1
}

// What a rule lists for each of n rows, one after the other: it is lent the tail of the output from the next free row.
pub fn put_each<F: Fn(usize, &mut [u32]) -> usize>(n: usize, rule: F, out: &mut [u32]) -> usize
    requires few { n ≤ most_rows }
    requires callable { (i : ℕ) (o : _) → i < n → F.pre rule i o }
    requires bounded { AtMost (F.post rule) n most_of_row }
    ensures emitted { (list : ℕ → List Row) → Lists (F.post rule) n list → Emitted (each list n) out.old out.new result }
    ensures upper_bound { (most : ℕ) → AtMost (F.post rule) n most → result ≤ n * most }
{
    let mut rows = 0;
    for i in 0..n {
        let at = used(rows, out.len());
        rows += rule(i, &mut out[at..]);
    }
    rows
}
