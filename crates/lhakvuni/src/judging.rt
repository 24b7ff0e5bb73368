// Evidence from a service that we don't trust: judged, with nothing lent but what is read.
ghost use Rattle.lhakvuni.specs.Calls.{JudgedKept};

use crate::calls::check_table;
use crate::refusal::Refusal;
use evidence::judged::Broken;
use evidence::row::EvidenceColumn;
use table::layout::layout_of;

// None where every mark is right, or the first type row that breaks one of the seven rules, with its lowest rule.
pub fn check_evidence(
    text: &[u8],
    words: &[u32],
    evidence: &[u32],
) -> Result<Option<Broken>, Refusal>
    ensures { JudgedKept text.now words.now evidence.now result }
{
    check_table(text, words)?;
    let l = layout_of(words);
    if evidence.len() != EvidenceColumn::COUNT * l.types {
        return Err(Refusal::WrongEvidence);
    }
    Ok(judge::check_evidence(words, l, evidence))
}
