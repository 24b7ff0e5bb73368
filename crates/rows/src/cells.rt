// The words of a row in a part of edges, fields, arguments, members or values.
ghost use Rattle.std.specs.Prelude.{◌≡◌, ◌<◌};
ghost use Rattle.rows.specs.Parts.{edge_rows, edge_name_in, member_rows, member_name_in, value_rows, value_name_in, field_rows, field_name_in, field_type_in, field_wrap_in, argument_rows, argument_name_in, argument_type_in, argument_wrap_in, argument_default_in};

use names::wrap::Wrap;
use table::layout::Layout;
use table::numbers::NameNo;

pub fn edge_rows(edges: &[u32]) -> usize
    ensures { result ≡ edge_rows edges.now }
{
    edges.len()
}

pub fn edge_name(edges: &[u32], i: usize) -> NameNo
    requires { i < edge_rows edges.now }
    ensures { result.0 ≡ edge_name_in edges.now i }
{
    NameNo(edges[i])
}

pub fn field_rows(fields: &[u32]) -> usize
    ensures { result ≡ field_rows fields.now }
{
    fields.len() / Layout::FIELD
}

pub fn field_name(fields: &[u32], i: usize) -> NameNo
    requires { i < field_rows fields.now }
    ensures { result.0 ≡ field_name_in fields.now i }
{
    let at = Layout::FIELD * i;
    NameNo(fields[at])
}

pub fn field_type(fields: &[u32], i: usize) -> NameNo
    requires { i < field_rows fields.now }
    ensures { result.0 ≡ field_type_in fields.now i }
{
    let at = Layout::FIELD * i + 1;
    NameNo(fields[at])
}

pub fn field_wrap(fields: &[u32], i: usize) -> Wrap
    requires { i < field_rows fields.now }
    ensures { result.0 ≡ field_wrap_in fields.now i }
{
    let at = Layout::FIELD * i + 2;
    Wrap(fields[at])
}

pub fn argument_rows(arguments: &[u32]) -> usize
    ensures { result ≡ argument_rows arguments.now }
{
    arguments.len() / Layout::ARGUMENT
}

pub fn argument_name(arguments: &[u32], i: usize) -> NameNo
    requires { i < argument_rows arguments.now }
    ensures { result.0 ≡ argument_name_in arguments.now i }
{
    let at = Layout::ARGUMENT * i;
    NameNo(arguments[at])
}

pub fn argument_type(arguments: &[u32], i: usize) -> NameNo
    requires { i < argument_rows arguments.now }
    ensures { result.0 ≡ argument_type_in arguments.now i }
{
    let at = Layout::ARGUMENT * i + 1;
    NameNo(arguments[at])
}

pub fn argument_wrap(arguments: &[u32], i: usize) -> Wrap
    requires { i < argument_rows arguments.now }
    ensures { result.0 ≡ argument_wrap_in arguments.now i }
{
    let at = Layout::ARGUMENT * i + 2;
    Wrap(arguments[at])
}

pub fn argument_default(arguments: &[u32], i: usize) -> u32
    requires { i < argument_rows arguments.now }
    ensures { result ≡ argument_default_in arguments.now i }
{
    let at = Layout::ARGUMENT * i + 3;
    arguments[at]
}

pub fn member_rows(members: &[u32]) -> usize
    ensures { result ≡ member_rows members.now }
{
    members.len()
}

pub fn member_name(members: &[u32], i: usize) -> NameNo
    requires { i < member_rows members.now }
    ensures { result.0 ≡ member_name_in members.now i }
{
    NameNo(members[i])
}

pub fn value_rows(values: &[u32]) -> usize
    ensures { result ≡ value_rows values.now }
{
    values.len()
}

pub fn value_name(values: &[u32], i: usize) -> NameNo
    requires { i < value_rows values.now }
    ensures { result.0 ≡ value_name_in values.now i }
{
    NameNo(values[i])
}
