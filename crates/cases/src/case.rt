// A case: what its call is lent, and what the call must answer and leave.
use crate::call::Call;
use crate::input::{Head, MOST, read_text, read_words};
use crate::tally::Tally;
use evidence::judged::Broken;
use lhakvuni::c::number;
use lhakvuni::{Refusal, check_evidence, check_table, first_cycle, make_evidence, records};
use std::io;
use std::io::Read;
use table::numbers::TypeRow;

// The buffers hold more than the case has; the head has the lengths.
#[derive(Drop)]
struct Case {
    head: Head,
    text: [u8; MOST],
    words: [u32; MOST],
    evidence: [u32; MOST],
    work: [u32; MOST],
    out: [u32; MOST],
    work_after: [u32; MOST],
    out_after: [u32; MOST],
}

// The answer has the number and the value that the case asks for; a case has 0 for what is not there.
fn answer_right(head: Head, answer: Result<usize, Refusal>) -> bool {
    let value = match answer {
        Ok(n) | Err(Refusal::ShortOut(n)) => n,
        Err(_) => 0,
    };
    (head.number == number(answer)) & (head.value as usize == value)
}

// The judgement has the row and the rule that the case asks for, or the refusal's number.
fn judgement_right(head: Head, judgement: Result<Option<Broken>, Refusal>) -> bool {
    let (row, rule) = match judgement {
        Ok(Some(Broken { row, rule })) => (row.0, rule),
        Ok(None) | Err(_) => (0, 0),
    };
    (head.number == number(judgement)) & (head.value == row) & (head.rule == rule)
}

impl Case {
    fn read(&mut self, input: &mut impl Read) -> io::Result<()> {
        let head = self.head;
        read_text(input, &mut self.text[..head.text])?;
        read_words(input, &mut self.words[..head.words])?;
        read_words(input, &mut self.evidence[..head.evidence])?;
        read_words(input, &mut self.work[..head.work])?;
        read_words(input, &mut self.out[..head.out])?;
        read_words(input, &mut self.work_after[..head.work])?;
        read_words(input, &mut self.out_after[..head.out])
    }

    // Makes the call, and says whether its answer is right.
    fn call(&mut self, call: Call) -> bool {
        let head = self.head;
        let text = &self.text[..head.text];
        let words = &self.words[..head.words];
        let work = &mut self.work[..];
        let work = &mut work[..head.work];
        let out = &mut self.out[..];
        let out = &mut out[..head.out];
        match call {
            Call::CheckTable => wellformed::check::number(check_table(text, words)) == head.number,
            Call::Records => answer_right(head, records(text, words, work, out)),
            Call::FirstCycle => {
                answer_right(head, first_cycle(text, words, TypeRow(head.row), work, out))
            }
            Call::CheckEvidence => {
                let evidence = &self.evidence[..head.evidence];
                judgement_right(head, check_evidence(text, words, evidence))
            }
            Call::MakeEvidence => answer_right(head, make_evidence(text, words, work, out)),
        }
    }

    // What a call left in the work table and the output is what the case asks for.
    fn memory_right(&self) -> bool {
        let Head { work, out, .. } = self.head;
        (self.work[..work] == self.work_after[..work]) & (self.out[..out] == self.out_after[..out])
    }
}

// Reads a case behind its head, makes its call, and notes whether the answer and all lent words are right.
pub(crate) fn run_case(input: &mut impl Read, head: Head, tally: &mut Tally) -> io::Result<()> {
    let mut case = Case {
        head,
        text: [0; MOST],
        words: [0; MOST],
        evidence: [0; MOST],
        work: [0; MOST],
        out: [0; MOST],
        work_after: [0; MOST],
        out_after: [0; MOST],
    };
    case.read(input)?;
    if let Ok(call) = Call::try_from(head.call) {
        tally.add(call, case.call(call) & case.memory_right());
    }
    Ok(())
}
