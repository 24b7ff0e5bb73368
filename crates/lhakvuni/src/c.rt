// The calls as C has them: the number is returned, and what stands beside it is put in its place. crates/lhakvuni_c exports them.
ghost use Rattle.std.specs.Prelude.{◌≡◌};
ghost use Rattle.wellformed.specs.WellFormed.{refusal};
ghost use Rattle.lhakvuni.specs.Answers.{number_of, value_of, broken_row, broken_rule};
ghost use Rattle.lhakvuni.specs.Exports.{RecordsExported, FirstCycleExported, JudgedExported, EvidenceExported};

use crate::calls::{check_table, first_cycle, records};
use crate::judging::check_evidence;
use crate::making::make_evidence;
use crate::refusal::Refusal;
use evidence::judged::Broken;
use table::numbers::TypeRow;

// The number of an answer: 0 for a success, or the refusal's.
pub fn number<T: Copy>(answer: Result<T, Refusal>) -> u32
    ensures { result ≡ number_of answer }
{
    match answer {
        Ok(_) => 0,
        Err(refusal) => u32::from(refusal),
    }
}

// Puts what an answer returns beside its number in its place, and leaves that alone where there is nothing to return.
fn put_value(answer: Result<usize, Refusal>, value: &mut u64)
    ensures { value.new ≡ value_of answer value.old }
{
    match answer {
        Ok(n) | Err(Refusal::ShortOut(n)) => *value = n as u64,
        Err(_) => {}
    }
}

pub fn lv_check_table(text: &[u8], words: &[u32]) -> u32
    ensures { result ≡ refusal text.now words.now }
{
    wellformed::check::number(check_table(text, words))
}

pub fn lv_records(
    text: &[u8],
    words: &[u32],
    work: &mut [u32],
    out: &mut [u32],
    value: &mut u64,
) -> u32
    ensures { RecordsExported text.now words.now work.old out.old work.new out.new value.old value.new result }
{
    let answer = records(text, words, work, out);
    put_value(answer, value);
    number(answer)
}

pub fn lv_first_cycle(
    text: &[u8],
    words: &[u32],
    type_row: u32,
    work: &mut [u32],
    out: &mut [u32],
    value: &mut u64,
) -> u32
    ensures { FirstCycleExported text.now words.now type_row work.old out.old work.new out.new value.old value.new result }
{
    let answer = first_cycle(text, words, TypeRow(type_row), work, out);
    put_value(answer, value);
    number(answer)
}

// Puts the row and the rule of a judgement in their places, and leaves those alone for a refusal.
fn put_judgement(judgement: Result<Option<Broken>, Refusal>, row: &mut u32, rule: &mut u32)
    ensures row_after { row.new ≡ broken_row judgement row.old }
    ensures rule_after { rule.new ≡ broken_rule judgement rule.old }
{
    match judgement {
        Ok(None) => {
            *row = TypeRow::NONE.0;
            *rule = 0;
        }
        Ok(Some(broken)) => {
            *row = broken.row.0;
            *rule = broken.rule;
        }
        Err(_) => {}
    }
}

pub fn lv_check_evidence(
    text: &[u8],
    words: &[u32],
    evidence: &[u32],
    row: &mut u32,
    rule: &mut u32,
) -> u32
    ensures { JudgedExported text.now words.now evidence.now row.old row.new rule.old rule.new result }
{
    let judgement = check_evidence(text, words, evidence);
    put_judgement(judgement, row, rule);
    number(judgement)
}

pub fn lv_make_evidence(
    text: &[u8],
    words: &[u32],
    work: &mut [u32],
    out: &mut [u32],
    value: &mut u64,
) -> u32
    ensures { EvidenceExported text.now words.now work.old out.old work.new out.new value.old value.new result }
{
    let answer = make_evidence(text, words, work, out);
    put_value(answer, value);
    number(answer)
}
