// What the bytes of a name say.
ghost use Rattle.std.specs.Prelude.{◌≡◌, ◌<◌};
ghost use Rattle.table.specs.Layout.{Laid};
ghost use Rattle.rows.specs.Types.{reserved, builtin};
ghost use Rattle.rows.specs.Readable.{Spelled};

use names::name::{is_builtin_scalar, starts_reserved};
use table::layout::Layout;
use table::numbers::NameNo;
use wellformed::refusal4::name_bytes;

// The name starts with `__`.
pub fn is_reserved(text: &[u8], words: &[u32], l: Layout, name: NameNo) -> bool
    requires laid { Laid words.now l }
    requires spelled { Spelled text.now words.now l }
    requires name_lt_names { name.0 < l.names }
    ensures { result ≡ reserved text.now words.now name.0 }
{
    starts_reserved(name_bytes(text, words, l, name))
}

// The name is Int, Float, String, Boolean or ID.
pub fn is_builtin(text: &[u8], words: &[u32], l: Layout, name: NameNo) -> bool
    requires laid { Laid words.now l }
    requires spelled { Spelled text.now words.now l }
    requires name_lt_names { name.0 < l.names }
    ensures { result ≡ builtin text.now words.now name.0 }
{
    is_builtin_scalar(name_bytes(text, words, l, name))
}
