// Words and bytes from standard input. Where it has ended they are 0.
ghost use Rattle.std.specs.Prelude.{◌≤◌, IfOk, length};

use std::io;
use std::io::Read;

// The most bytes or words of one kind that a case has.
pub const MOST: usize = 4096;

// The head of a case. A length above the most is cut to that, and the cases behind it then come out wrong: no case of the file is so long.
#[derive(Clone, Copy)]
pub struct Head {
    pub call: u32,
    pub text: usize,
    pub words: usize,
    pub row: u32,
    pub evidence: usize,
    pub work: usize,
    pub out: usize,
    pub number: u32,
    pub value: u32,
    pub rule: u32,
    ghost text_fits: { text ≤ 4096 },
    ghost words_fit: { words ≤ 4096 },
    ghost evidence_fits: { evidence ≤ 4096 },
    ghost work_fits: { work ≤ 4096 },
    ghost out_fits: { out ≤ 4096 },
}

// Reads until the bytes are full or the input has ended, and answers how many were read; those behind them are left as they were.
fn read_full(input: &mut impl Read, bytes: &mut [u8]) -> io::Result<usize>
    ensures { IfOk result (λ n. n ≤ length bytes.new) }
{
    let mut read = 0;
    while read < bytes.len() {
        let n = input.read(&mut bytes[read..])?;
        if n == 0 {
            break;
        }
        read += n;
    }
    Ok(read)
}

fn read_word(input: &mut impl Read) -> io::Result<u32> {
    let mut bytes = [0; 4];
    read_full(input, &mut bytes)?;
    Ok(u32::from_le_bytes(bytes))
}

fn read_length(input: &mut impl Read) -> io::Result<usize>
    ensures { IfOk result (λ n. n ≤ 4096) }
{
    let n = read_word(input)?;
    Ok((n as usize).min(MOST))
}

pub(crate) fn read_head(input: &mut impl Read) -> io::Result<Head> {
    Ok(Head {
        call: read_word(input)?,
        text: read_length(input)?,
        words: read_length(input)?,
        row: read_word(input)?,
        evidence: read_length(input)?,
        work: read_length(input)?,
        out: read_length(input)?,
        number: read_word(input)?,
        value: read_word(input)?,
        rule: read_word(input)?,
    })
}

// Text is padded to whole words.
pub(crate) fn read_text(input: &mut impl Read, text: &mut [u8]) -> io::Result<()> {
    read_full(input, text)?;
    let padding = (4 - text.len() % 4) % 4;
    read_full(input, &mut [0; 3][..padding])?;
    Ok(())
}

pub(crate) fn read_words(input: &mut impl Read, words: &mut [u32]) -> io::Result<()> {
    for word in words.iter_mut() {
        *word = read_word(input)?;
    }
    Ok(())
}
