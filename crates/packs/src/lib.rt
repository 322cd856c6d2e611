// Reads the records of a pack, as tools/pack writes it, and prints answers.
#![tactic(auto)]

ghost use Rattle.std.specs.Prelude.{◌≡◌, ◌+◌, ◌≤◌, length, pos, ◌-ℤ◌, IfOk};
ghost use Rattle.image.specs.Rows.{word_at};
ghost use Rattle.packs.specs.Records.{NextRecord, Taken};

use std::io;
use std::io::Read;

// Why there is no next record.
#[derive(Clone, Copy, Debug, PartialEq, Eq)]
pub enum PackEnd {
    // The pack is at its end, or the record is longer than the buffer.
    NoRecord,
    // The pack ends within the record.
    CutShort,
}

// The signed number at a byte, which is packed with 2,147,483,648 added to it.
pub fn signed_at(s: &[u8], at: usize) -> i32
    requires { at + 4 ≤ length s.now }
    ensures { result ≡ pos (word_at s.now at) -ℤ pos 2147483648 }
{
    (i64::from(image::word_at(s, at)) - 2_147_483_648) as i32
}

// Puts the next record at the start of the buffer and answers its length. A read that fails ends the pack.
pub fn next_record<R: Read>(reader: &mut R, buffer: &mut [u8]) -> Result<usize, PackEnd>
    ensures answer { NextRecord buffer.old result buffer.new }
    ensures within { IfOk result (λ n. n ≤ length buffer.new) }
    ensures bytes { IfOk result
        (λ n. Taken (R.remaining reader.old) (R.remaining reader.new) n buffer.new) }
{
    let mut head = [0u8; 4];
    reader.read_exact(&mut head).map_err(|_| PackEnd::NoRecord)?;
    let n = image::word_at(&head, 0) as usize;
    if buffer.len() < n {
        return Err(PackEnd::NoRecord);
    }
    reader
        .read_exact(&mut buffer[..n])
        .map_err(|_| PackEnd::CutShort)?;
    Ok(n)
}

// Prints an answer of the check on a line: the question that refuses and its row, or 0 and 0.
pub fn print_answer(rt: &impl Print, refusal: u32, row: u32) -> io::Result<()>
    ensures { IfOk result (λ x. x ≡ tt) }
{
    println!(rt; "{refusal} {row}")
}
