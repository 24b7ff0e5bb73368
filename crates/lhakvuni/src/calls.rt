// The calls. Each makes the checks that concern it, in document 01's order, before it writes anything.
ghost use Rattle.std.specs.Prelude.{◌≡◌, ◌*◌, ◌≤◌, ◌<◌, length};
ghost use Rattle.wellformed.specs.WellFormed.{refusal};
ghost use Rattle.wellformed.specs.Answers.{verdict_number, Proper};
ghost use Rattle.table.specs.Layout.{type_count};
ghost use Rattle.rows.specs.Readable.{SoundRows, Readable};
ghost use Rattle.rising.specs.Runs.{EdgesApart, MembersApart};
ghost use Rattle.records.specs.Records.{Emitted};
ghost use Rattle.validation.specs.Bounds.{most_records};
ghost use Rattle.validation.specs.Validation.{records as list_of};
ghost use Rattle.links.specs.Fields.{chain_graph};
ghost use Rattle.chains.specs.Work.{trail_at};
ghost use Rattle.chains.specs.Answer.{Settled};
ghost use Rattle.counting.specs.Counting.{counts_in};
ghost use Rattle.lhakvuni.specs.Calls.{input_object_at, RecordsKept, FirstCycleKept};
ghost use Rattle.lhakvuni.specs.Outputs.{RecordsOutput, CycleOutput};

use crate::refusal::Refusal;
use chains::cycle::clear;
use chains::work::Work;
use counting::{count_cycle, count_cycles};
use lent::{Schema, Table};
use links::{Links, is_input_object, link};
use records::Record;
use rising::lists::sort_lists;
use rows::index::index_types;
use table::layout::{Layout, layout_of};
use table::numbers::TypeRow;
use table::refusal::Malformed;
use validation::validate::validate_schema;

// Whether a text and a table are well-formed, or the first of the table's refusals.
pub fn check_table(text: &[u8], words: &[u32]) -> Result<(), Malformed>
    ensures result_value { verdict_number result ≡ refusal text.now words.now }
    ensures proper { Proper result }
{
    wellformed::check::check_table(text, words)
}

// The rules, with the counts of the work table.
fn list_records(schema: &Schema, work: &[u32], out: &mut [u32]) -> usize
    requires { trail_at schema.now.table.layout.types ≤ length work.now }
    ensures emitted { Emitted (list_of schema.now.text.now schema.now.table.words.now (counts_in schema.now.table.layout.types work.now)) out.old out.new result }
    ensures upper_bound { result ≤ most_records }
{
    let parts = Work {
        types: schema.table.layout.types,
    };
    let from = parts.counts_at();
    let to = parts.trail_at();
    validate_schema(schema, &work[from..to], out)
}

// How many records there are: the rules over an empty part of the output.
fn count_records(schema: &Schema, work: &[u32], out: &mut [u32]) -> usize
    requires { trail_at schema.now.table.layout.types ≤ length work.now }
    ensures value { result ≡ length (list_of schema.now.text.now schema.now.table.words.now (counts_in schema.now.table.layout.types work.now)) }
    ensures upper_bound { result ≤ most_records }
    ensures out_unchanged { out.new ≡ out.old }
{
    let end = out.len();
    list_records(schema, work, &mut out[end..])
}

// Writes the records if they fit. Where there are none nothing is left to do.
fn put_records(schema: &Schema, work: &[u32], out: &mut [u32]) -> Result<usize, Refusal>
    requires { trail_at schema.now.table.layout.types ≤ length work.now }
    ensures { RecordsOutput schema.now.text.now schema.now.table.words.now (counts_in schema.now.table.layout.types work.now) out.old out.new result }
{
    let rows = count_records(schema, work, out);
    if rows == 0 {
        return Ok(0);
    }
    let need = Record::WORDS * rows;
    if out.len() < need {
        return Err(Refusal::ShortOut(need));
    }
    list_records(schema, work, out);
    Ok(rows)
}

// The same, with what the rules look up: the types by their names, and the names of edges and members in rising order.
fn write_records<'a>(
    text: &'a [u8],
    words: &'a [u32],
    layout: Layout,
    work: &[u32],
    out: &mut [u32],
) -> Result<usize, Refusal>
    requires readable { Readable text.now words.now layout }
    requires edges_apart { EdgesApart words.now × MembersApart words.now }
    requires types_in_bounds { trail_at layout.types ≤ length work.now }
    ensures { RecordsOutput text.now words.now (counts_in layout.types work.now) out.old out.new result }
{
    let mut index = [0; 4096];
    index_types(words, layout, &mut index);
    let mut lists = [0; 8192];
    sort_lists(words, layout, &mut lists);
    let table = Table {
        words,
        layout,
        index: &index,
        lists: &lists,
    };
    put_records(&Schema { text, table }, work, out)
}

// The records of a schema, in document 01's order: five words a row, from the start of the output.
pub fn records(
    text: &[u8],
    words: &[u32],
    work: &mut [u32],
    out: &mut [u32],
) -> Result<usize, Refusal>
    ensures { RecordsKept text.now words.now work.old out.old work.new out.new result }
{
    check_table(text, words)?;
    let l = layout_of(words);
    let need = Work { types: l.types }.size();
    if work.len() < need {
        return Err(Refusal::ShortWork);
    }
    clear(work, need);
    count_cycles(words, l, work);
    let answer = write_records(text, words, l, work, out);
    clear(work, need);
    answer
}

// The row is that of an input object.
fn is_input_object_row(words: &[u32], l: Layout, row: TypeRow) -> bool
    requires { SoundRows words.now l }
    ensures { result ≡ input_object_at words.now row.0 }
{
    if l.types <= row.index() {
        return false;
    }
    is_input_object(words, l, row)
}

// The field rows of the first cycle of an input object, one word each from the start of the output, and none where no chain is closed.
pub fn first_cycle(
    text: &[u8],
    words: &[u32],
    row: TypeRow,
    work: &mut [u32],
    out: &mut [u32],
) -> Result<usize, Refusal>
    ensures { FirstCycleKept text.now words.now row.0 work.old out.old work.new out.new result }
{
    check_table(text, words)?;
    let l = layout_of(words);
    if !is_input_object_row(words, l, row) {
        return Err(Refusal::NoInputObject);
    }
    let room = Work { types: l.types }.size();
    if work.len() < room {
        return Err(Refusal::ShortWork);
    }
    clear(work, room);
    let answer = write_cycle(words, l, row, work, out);
    clear(work, room);
    answer
}

// Writes the first cycle if it fits.
fn put_cycle(links: &Links, t: TypeRow, work: &mut [u32], out: &mut [u32]) -> Result<usize, Refusal>
    requires t_bound { t.0 < type_count links.now.words.now }
    requires settled { Settled (chain_graph links.now.words.now) work.old }
    ensures cycle_output { CycleOutput (chain_graph links.now.words.now) t.0 out.old out.new result }
    ensures work_unchanged { work.new ≡ work.old }
{
    let n = count_cycle(links, t, work);
    if out.len() < n {
        return Err(Refusal::ShortOut(n));
    }
    chains::cycle::first_cycle(links, t, work, out);
    Ok(n)
}

// The same, where what the fields lead to is looked up first.
fn write_cycle(
    words: &[u32],
    l: Layout,
    t: TypeRow,
    work: &mut [u32],
    out: &mut [u32],
) -> Result<usize, Refusal>
    requires sound_rows { SoundRows words.now l }
    requires t_lt_types { t.0 < l.types }
    requires settled { Settled (chain_graph words.now) work.old }
    ensures cycle_output { CycleOutput (chain_graph words.now) t.0 out.old out.new result }
    ensures work_unchanged { work.new ≡ work.old }
{
    let mut targets = [0; 8192];
    link(words, l, &mut targets);
    let links = Links {
        words,
        targets: &targets,
    };
    put_cycle(&links, t, work, out)
}
