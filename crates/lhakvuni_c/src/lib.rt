// The calls for C; include/lhakvuni.h says what each pointer must be. A slice is a pointer and then a length.
//
// An archive for C is a crate of its own: each export is the call of `lhakvuni::c` with its name, and promises what that promises.
#![tactic(auto)]

ghost use Rattle.std.specs.Prelude.{◌≡◌};
ghost use Rattle.wellformed.specs.WellFormed.{refusal};
ghost use Rattle.lhakvuni.specs.Exports.{RecordsExported, FirstCycleExported, JudgedExported, EvidenceExported};

#[unsafe(no_mangle)]
pub extern "C" fn lv_check_table(text: &[u8], words: &[u32]) -> u32
    ensures { result ≡ refusal text.now words.now }
{
    lhakvuni::c::lv_check_table(text, words)
}

#[unsafe(no_mangle)]
pub extern "C" fn lv_records(
    text: &[u8],
    words: &[u32],
    work: &mut [u32],
    out: &mut [u32],
    value: &mut u64,
) -> u32
    ensures { RecordsExported text.now words.now work.old out.old work.new out.new value.old value.new result }
{
    lhakvuni::c::lv_records(text, words, work, out, value)
}

#[unsafe(no_mangle)]
pub extern "C" fn lv_first_cycle(
    text: &[u8],
    words: &[u32],
    type_row: u32,
    work: &mut [u32],
    out: &mut [u32],
    value: &mut u64,
) -> u32
    ensures { FirstCycleExported text.now words.now type_row work.old out.old work.new out.new value.old value.new result }
{
    lhakvuni::c::lv_first_cycle(text, words, type_row, work, out, value)
}

#[unsafe(no_mangle)]
pub extern "C" fn lv_check_evidence(
    text: &[u8],
    words: &[u32],
    evidence: &[u32],
    row: &mut u32,
    rule: &mut u32,
) -> u32
    ensures { JudgedExported text.now words.now evidence.now row.old row.new rule.old rule.new result }
{
    lhakvuni::c::lv_check_evidence(text, words, evidence, row, rule)
}

#[unsafe(no_mangle)]
pub extern "C" fn lv_make_evidence(
    text: &[u8],
    words: &[u32],
    work: &mut [u32],
    out: &mut [u32],
    value: &mut u64,
) -> u32
    ensures { EvidenceExported text.now words.now work.old out.old work.new out.new value.old value.new result }
{
    lhakvuni::c::lv_make_evidence(text, words, work, out, value)
}
