// Field types, of an interface against the own: the wraps layer by layer from the outside, then the names.
ghost use Rattle.std.specs.Prelude.{◌≡◌, ◌+◌, ◌<◌};
ghost use Rattle.comparing.specs.FieldTypes.{layer_fits, layers_fit, wraps_fit, has_edge, has_object_member, names_match, field_type_fits};

use lent::Table;
use names::wrap::Wrap;
use table::kinds::Kind;
use table::numbers::{NameNo, TypeRow};

// A non-null interface layer needs a non-null own layer.
fn layer_fits(wrap: Wrap, own: Wrap, layer: u32) -> bool
    requires { layer < 16 }
    ensures { result ≡ layer_fits wrap.0 own.0 layer }
{
    !wrap.non_null(layer) | own.non_null(layer)
}

// From a layer on, with so many list layers left on each side: list meets list, name meets name. The layers left fall.
fn layers_fit(wrap: Wrap, own: Wrap, layer: u32, left: u32, own_left: u32) -> bool
    requires { layer + left < 16 }
    ensures { result ≡ layers_fit wrap.0 own.0 layer left own_left }
{
    if left == 0 {
        if own_left == 0 {
            return layer_fits(wrap, own, layer);
        }
        return false;
    }
    if own_left == 0 {
        return false;
    }
    if layer_fits(wrap, own, layer) {
        return layers_fit(wrap, own, layer + 1, left - 1, own_left - 1);
    }
    false
}

fn wraps_fit(wrap: Wrap, own: Wrap) -> bool
    ensures { result ≡ wraps_fit wrap.0 own.0 }
{
    layers_fit(wrap, own, 0, wrap.list_layers(), own.list_layers())
}

// An interface, and an object or interface with an edge of its name.
fn has_edge(table: &Table, ty: TypeRow, name: NameNo, own: TypeRow) -> bool
    requires { (ty.0 < table.now.layout.types) × (own.0 < table.now.layout.types) }
    ensures { result ≡ has_edge table.now.words.now ty.0 name.0 own.0 }
{
    if (table.kind(ty) == Kind::Interface) & Kind::is_composite(u32::from(table.kind(own))) {
        return table.is_edge_of(name, own);
    }
    false
}

// A union, and an object among its members.
fn has_object_member(table: &Table, ty: TypeRow, own: TypeRow, name: NameNo) -> bool
    requires { (ty.0 < table.now.layout.types) × (own.0 < table.now.layout.types) }
    ensures { result ≡ has_object_member table.now.words.now ty.0 own.0 name.0 }
{
    if (table.kind(ty) == Kind::Union) & (table.kind(own) == Kind::Object) {
        return table.is_member_of(name, ty);
    }
    false
}

// Names match if equal, or by an edge, or by a union.
fn names_match(table: &Table, name: NameNo, own_name: NameNo) -> bool
    ensures { result ≡ names_match table.now.words.now name.0 own_name.0 }
{
    if name == own_name {
        return true;
    }
    let Some(ty) = table.look_up(name) else {
        return false;
    };
    let Some(own) = table.look_up(own_name) else {
        return false;
    };
    if has_edge(table, ty, name, own) {
        return true;
    }
    has_object_member(table, ty, own, own_name)
}

// The own type does for the interface's (the Rust's is_valid_implementation_field_type).
pub fn is_valid_implementation_field_type(
    table: &Table,
    name: NameNo,
    wrap: Wrap,
    own_name: NameNo,
    own: Wrap,
) -> bool
    ensures { result ≡ field_type_fits table.now.words.now name.0 wrap.0 own_name.0 own.0 }
{
    if wraps_fit(wrap, own) {
        return names_match(table, name, own_name);
    }
    false
}
