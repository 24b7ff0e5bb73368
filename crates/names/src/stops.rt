// Spec Names in one text.
//
// The problem: names may lie over each other, so that to read each of them may be to read the text as often as there are names.
// The idea: the bytes are read once. For each block of 64 bytes it is kept where the first byte stands, from the block's first on, that
// continues no name: its stop. A name then reads its own bytes up to the next block, and the stop of that block says the rest.
ghost use Rattle.std.specs.Prelude.{◌≡◌, ◌≤◌, length};
ghost use Rattle.names.specs.Count.{part};
ghost use Rattle.names.specs.Names.{is_name};
ghost use Rattle.names.specs.Stops.{most_blocks, most_bytes, Stop, Stops, continue_between};

use crate::name::{continues_name, starts_name};

// The stop from `start` on, where `next` is that from `end` on.
fn first_stop(text: &[u8], start: usize, end: usize, next: usize) -> usize
    requires start_le_end { (start ≤ end) × (end ≤ length text.now) }
    requires stop { Stop text.now end next }
    ensures { Stop text.now start result }
{
    match text[start..end].iter().position(|b| !continues_name(*b)) {
        Some(i) => start + i,
        None => next,
    }
}

// The stop from each block on, the last block first.
pub fn find_stops(text: &[u8], stops: &mut [u32])
    requires { (length text.now ≤ most_bytes) × (length stops.old ≡ most_blocks) }
    ensures { Stops text.now stops.new }
{
    let mut end = text.len();
    let mut next = end;
    for k in (0..end.div_ceil(64)).rev() {
        next = first_stop(text, 64 * k, end, next);
        stops[k] = next as u32;
        end = 64 * k;
    }
}

// Every byte from `start` up to `end` continues a name. Those up to the next block are read.
fn all_continue(text: &[u8], stops: &[u32], start: usize, end: usize) -> bool
    requires start_le_end { (start ≤ end) × (end ≤ length text.now) }
    requires stops { Stops text.now stops.now }
    ensures { result ≡ continue_between text.now start end }
{
    for i in start..end {
        if i % 64 == 0 {
            return end <= stops[i / 64] as usize;
        }
        if !continues_name(text[i]) {
            return false;
        }
    }
    true
}

// The bytes from `start` up to `end` are a Spec Name: a letter or an underscore, then letters, digits and underscores.
pub fn is_name(text: &[u8], stops: &[u32], start: usize, end: usize) -> bool
    requires start_le_end { (start ≤ end) × (end ≤ length text.now) }
    requires stops { Stops text.now stops.now }
    ensures { result ≡ is_name (part text.now start end) }
{
    if start == end {
        return false;
    }
    starts_name(text[start]) && all_continue(text, stops, start, end)
}
