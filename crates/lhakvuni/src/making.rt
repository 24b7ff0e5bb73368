// Evidence of our own: written for a judge that need not trust us either.
ghost use Rattle.lhakvuni.specs.Calls.{EvidenceKept};

use crate::calls::check_table;
use crate::refusal::Refusal;
use chains::cycle::clear;
use evidence::row::EvidenceColumn;
use table::layout::layout_of;

// Six words for each type, from the start of the output.
pub fn make_evidence(
    text: &[u8],
    words: &[u32],
    work: &mut [u32],
    out: &mut [u32],
) -> Result<usize, Refusal>
    ensures { EvidenceKept text.now words.now work.old out.old work.new out.new result }
{
    check_table(text, words)?;
    let l = layout_of(words);
    let need = EvidenceColumn::COUNT * l.types;
    if work.len() < need {
        return Err(Refusal::ShortWork);
    }
    if out.len() < need {
        clear(work, need);
        return Err(Refusal::ShortOut(need));
    }
    producer::make_evidence(words, l, work, out);
    Ok(l.types)
}
