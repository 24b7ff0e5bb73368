// What a rule is lent.
//
// The problem: every rule reads the same few things: the words of a table with their layout, the cells and lists in which types, edges and members are
// looked up by their names, and the text in which names are spelled. Each counts on the same facts of them.
// The idea: a `Table` is the words with all that is looked up in, and a `Schema` is a table with its text. What they can be counted on for is a
// fact of every value of theirs (`Findable`, `Spelled`), which is shown once, where a value is made. A rule that reads no bytes takes a `Table`.
#![tactic(auto)]

ghost use Rattle.std.specs.Prelude.{◌≡◌, ◌<◌, IfSome, MatchOption, true, false};
ghost use Rattle.table.specs.Layout.{root_words, type_name, type_kind, type_flag, root};
ghost use Rattle.table.specs.Answers.{kind_number};
ghost use Rattle.rows.specs.Search.{contains};
ghost use Rattle.rows.specs.Parts.{edges_of, members_of};
ghost use Rattle.rows.specs.Types.{type_named, found_at, defined, kind_named, reserved, builtin};
ghost use Rattle.rows.specs.Readable.{Spelled};
ghost use Rattle.rising.specs.Lists.{Findable};

use table::kinds::Kind;
use table::layout::Layout;
use table::numbers::{NameNo, TypeRow};

// The words of a table, and what is looked up in.
#[derive(Clone, Copy)]
pub struct Table<'a> {
    pub words: &'a [u32],
    pub layout: Layout,
    // A cell for each name, which tells its type.
    pub index: &'a [u16],
    // The names of edges, and of members, in rising order.
    pub lists: &'a [u16],
    ghost findable: { Findable words.now layout index.now lists.now },
}

impl Table<'_> {
    // The type of the name.
    pub fn look_up(&self, name: NameNo) -> Option<TypeRow>
        ensures value { result ≡ found_at (type_named self.now.words.now name.0) self.now.layout.types }
        ensures below { IfSome result (λ t. t.0 < self.now.layout.types) }
    {
        rows::index::look_up(self.words, self.layout, self.index, name)
    }

    pub fn name(&self, t: TypeRow) -> NameNo
        requires { t.0 < self.now.layout.types }
        ensures value { result.0 ≡ type_name self.now.words.now t.0 }
        ensures below { result.0 < self.now.layout.names }
    {
        rows::types::type_name(self.words, self.layout, t)
    }

    pub fn kind(&self, t: TypeRow) -> Kind
        requires { t.0 < self.now.layout.types }
        ensures { kind_number result ≡ type_kind self.now.words.now t.0 }
    {
        rows::types::kind_of(self.words, self.layout, t)
    }

    // The flag that silences record 5.
    pub fn flag(&self, t: TypeRow) -> u32
        requires { t.0 < self.now.layout.types }
        ensures { result ≡ type_flag self.now.words.now t.0 }
    {
        rows::types::type_flag(self.words, self.layout, t)
    }

    // The kind of the type of the name.
    pub fn kind_named(&self, name: NameNo) -> Option<Kind>
        ensures { MatchOption result (defined self.now.words.now name.0 ≡ false) (λ kind. (defined self.now.words.now name.0 ≡ true) × (kind_number kind ≡ kind_named self.now.words.now name.0)) }
    {
        let t = self.look_up(name)?;
        Some(self.kind(t))
    }

    // The name of the root of an operation, or NONE.
    pub fn root(&self, operation: u32) -> NameNo
        requires { operation < root_words }
        ensures { result.0 ≡ root self.now.words.now operation }
    {
        rows::types::root_name(self.words, self.layout, operation)
    }

    // The name is that of an edge of type t.
    pub fn is_edge_of(&self, name: NameNo, t: TypeRow) -> bool
        requires { t.0 < self.now.layout.types }
        ensures { result ≡ contains (edges_of self.now.words.now t.0) name.0 }
    {
        rising::lists::is_edge_of(self.words, self.layout, self.lists, name, t)
    }

    // The name is that of a member of type t.
    pub fn is_member_of(&self, name: NameNo, t: TypeRow) -> bool
        requires { t.0 < self.now.layout.types }
        ensures { result ≡ contains (members_of self.now.words.now t.0) name.0 }
    {
        rising::lists::is_member_of(self.words, self.layout, self.lists, name, t)
    }
}

// A table with its text.
#[derive(Clone, Copy)]
pub struct Schema<'a> {
    pub text: &'a [u8],
    pub table: Table<'a>,
    ghost spelled: { Spelled text.now table.words.now table.layout },
}

impl Schema<'_> {
    // The name starts with `__`.
    pub fn is_reserved(&self, name: NameNo) -> bool
        requires { name.0 < self.now.table.layout.names }
        ensures { result ≡ reserved self.now.text.now self.now.table.words.now name.0 }
    {
        let table = &self.table;
        rows::spelling::is_reserved(self.text, table.words, table.layout, name)
    }

    // The name is Int, Float, String, Boolean or ID.
    pub fn is_builtin(&self, name: NameNo) -> bool
        requires { name.0 < self.now.table.layout.names }
        ensures { result ≡ builtin self.now.text.now self.now.table.words.now name.0 }
    {
        let table = &self.table;
        rows::spelling::is_builtin(self.text, table.words, table.layout, name)
    }
}
