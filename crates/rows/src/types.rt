// Types by their rows and by their names.
ghost use Rattle.std.specs.Prelude.{◌≡◌, ◌<◌};
ghost use Rattle.table.specs.Layout.{root_words, Laid, type_name, type_kind, type_flag, root};
ghost use Rattle.table.specs.Answers.{kind_number};
ghost use Rattle.rows.specs.Readable.{SoundRows};

use table::kinds::Kind;
use table::layout::{Layout, word_at};
use table::numbers::{NameNo, TypeRow};

pub fn type_name(words: &[u32], l: Layout, t: TypeRow) -> NameNo
    requires laid { Laid words.now l }
    requires t_lt_types { t.0 < l.types }
    ensures { result.0 ≡ type_name words.now t.0 }
{
    NameNo(word_at(words, l.type_names(), t.index()))
}

pub fn type_kind(words: &[u32], l: Layout, t: TypeRow) -> u32
    requires laid { Laid words.now l }
    requires t_lt_types { t.0 < l.types }
    ensures { result ≡ type_kind words.now t.0 }
{
    word_at(words, l.type_kinds(), t.index())
}

// The kind as the enum, for a decision on all kinds.
pub fn kind_of(words: &[u32], l: Layout, t: TypeRow) -> Kind
    requires sound_rows { SoundRows words.now l }
    requires t_lt_types { t.0 < l.types }
    ensures { kind_number result ≡ type_kind words.now t.0 }
{
    Kind::of(type_kind(words, l, t))
}

pub fn type_flag(words: &[u32], l: Layout, t: TypeRow) -> u32
    requires laid { Laid words.now l }
    requires t_lt_types { t.0 < l.types }
    ensures { result ≡ type_flag words.now t.0 }
{
    word_at(words, l.type_flags(), t.index())
}

// The name of the root of an operation, or NONE.
pub fn root_name(words: &[u32], l: Layout, operation: u32) -> NameNo
    requires laid { Laid words.now l }
    requires operation_lt_root_words { operation < root_words }
    ensures { result.0 ≡ root words.now operation }
{
    NameNo(word_at(words, l.roots(), operation as usize))
}
