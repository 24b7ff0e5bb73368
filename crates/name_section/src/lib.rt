// The name section, refusal 4: names lie in the text, are Spec Names, and strictly rise by byte order.
//
// The problem: names may lie over each other, and 4,096 of them may each be nearly all of the text: to read each would be to read the text
// 4,096 times.
// The idea: whether a name is a Spec Name is asked of stops, which are found once for the text (src/stops.rt of crates/names). Of two
// neighbours that start at one place the shorter comes first, and no byte is read; others are compared many bytes at a time.
#![tactic(auto)]

ghost use Rattle.std.specs.Prelude.{◌≡◌, true, ◌^◌, ◌≤◌, ◌<◌, length};
ghost use Rattle.names.specs.Stops.{Stops};
ghost use Rattle.table.specs.Layout.{most_text, word_at, name_starts, Laid};
ghost use Rattle.name_section.specs.NameSection.{name_end, bytes_of, name_good, name_rises, names_good, names_rise, names_right};

use names::name::comes_before;
use names::stops::{find_stops, is_name};
use table::layout::{Layout, end_at};
use table::numbers::NameNo;

fn name_start(words: &[u32], l: Layout, n: NameNo) -> usize
    requires laid { Laid words.now l }
    requires n_lt_names { n.0 < l.names }
    ensures value { result ≡ word_at words.now (name_starts l) n.0 }
    ensures upper_bound { result < 2 ^ 32 }
{
    end_at(words, l.name_starts(), n.index())
}

// The end of a name in the text: the sum of two words, which a usize holds.
fn name_end(words: &[u32], l: Layout, n: NameNo) -> usize
    requires laid { Laid words.now l }
    requires n_lt_names { n.0 < l.names }
    ensures { result ≡ name_end words.now l n.0 }
{
    name_start(words, l, n) + end_at(words, l.name_lengths(), n.index())
}

// The bytes of a name, which lies in the text.
pub fn name_bytes<'a>(text: &'a [u8], words: &[u32], l: Layout, n: NameNo) -> &'a [u8]
    requires laid { Laid words.now l }
    requires n_lt_names { n.0 < l.names }
    requires n_in_bounds { name_end words.now l n.0 ≤ length text.now }
    ensures { result.now ≡ bytes_of text.now words.now l n.0 }
{
    let start = name_start(words, l, n);
    let end = name_end(words, l, n);
    &text[start..end]
}

#[tactic(auto, unfolding(crate::specs::NameSection::name_good))]
fn name_good(text: &[u8], words: &[u32], l: Layout, stops: &[u32], n: NameNo) -> bool
    requires laid { Laid words.now l }
    requires n_lt_names { n.0 < l.names }
    requires stops { Stops text.now stops.now }
    ensures { result ≡ name_good text.now words.now l n.0 }
{
    let start = name_start(words, l, n);
    let end = name_end(words, l, n);
    end <= text.len() && is_name(text, stops, start, end)
}

// The name comes after the name before it, if there is one. Of two that start at one place, the shorter comes first.
#[tactic(auto, unfolding(crate::specs::NameSection::name_rises))]
fn name_rises(text: &[u8], words: &[u32], l: Layout, n: NameNo) -> bool
    requires laid { Laid words.now l }
    requires n_lt_names { n.0 < l.names }
    requires l_value { names_good text.now words.now l ≡ true }
    ensures { result ≡ name_rises text.now words.now l n.0 }
{
    if n.0 == 0 {
        return true;
    }
    let before = NameNo(n.0 - 1);
    if name_start(words, l, before) == name_start(words, l, n) {
        return name_end(words, l, before) < name_end(words, l, n);
    }
    comes_before(
        name_bytes(text, words, l, before),
        name_bytes(text, words, l, n),
    )
}

fn names_good(text: &[u8], words: &[u32], l: Layout, stops: &[u32]) -> bool
    requires laid { Laid words.now l }
    requires stops { Stops text.now stops.now }
    ensures { result ≡ names_good text.now words.now l }
{
    (0..l.names).all(|i| name_good(text, words, l, stops, NameNo(i as u32)))
}

fn names_rise(text: &[u8], words: &[u32], l: Layout) -> bool
    requires laid { Laid words.now l }
    requires l_value { names_good text.now words.now l ≡ true }
    ensures { result ≡ names_rise text.now words.now l }
{
    (0..l.names).all(|i| name_rises(text, words, l, NameNo(i as u32)))
}

#[tactic(auto, unfolding(crate::specs::NameSection::names_right))]
pub fn names_right(text: &[u8], words: &[u32], l: Layout) -> bool
    requires laid { Laid words.now l }
    requires text_len_bound { length text.now ≤ most_text }
    ensures { result ≡ names_right text.now words.now l }
{
    let mut stops = [0; 1024];
    find_stops(text, &mut stops);
    names_good(text, words, l, &stops) && names_rise(text, words, l)
}
