// The rows of an image's tables, and the numbers in them.
#![tactic(auto)]

ghost use Rattle.std.specs.Prelude.{◌≡◌, ◌+◌, ◌≤◌, ◌<◌, length};
ghost use Rattle.image.specs.Rows.{number_at, word_at, rows_of, row_at};
ghost use Rattle.image.specs.Versions.{scalar_rows, monadics};

// A row of a table. Its kind stays a number, as document 01's definitions have it, also where no rule allows it: so a
// match on it is one jump, with one arm for all that is no kind (docs/DESIGN-PASS.md, point 1).
#[derive(Clone, Copy)]
pub struct Row {
    pub kind: u8,
    pub zero: u8,
    pub a: u16,
    pub b: u16,
    pub c: u16,
}

// The 16-bit number at a byte.
pub fn number_at(t: &[u8], at: usize) -> u16
    requires { at + 2 ≤ length t.now }
    ensures { result ≡ number_at t.now at }
{
    u16::from_be_bytes([t[at], t[at + 1]])
}

// The 32-bit number at a byte, of two of 16 bits, as the definition has it.
pub fn word_at(t: &[u8], at: usize) -> u32
    requires { at + 4 ≤ length t.now }
    ensures { result ≡ word_at t.now at }
{
    let high = number_at(t, at);
    let low = number_at(t, at + 2);
    (high as u32) * 65536 + (low as u32)
}

// How many rows a table has.
pub fn rows_of(t: &[u8]) -> usize
    ensures { result ≡ rows_of t.now }
{
    t.len() / 8
}

// Row i of a table; where there is none, a row of kind 255.
pub fn row_at(t: &[u8], i: usize) -> Row
    ensures { result ≡ row_at t.now i }
{
    if t.len() / 8 <= i {
        return Row {
            kind: 255,
            zero: 0,
            a: 0,
            b: 0,
            c: 0,
        };
    }
    let at = i * 8;
    Row {
        kind: t[at],
        zero: t[at + 1],
        a: number_at(t, at + 2),
        b: number_at(t, at + 4),
        c: number_at(t, at + 6),
    }
}

// Number a of row i, which is there.
pub fn a_at(t: &[u8], i: usize) -> u16
    requires { i < rows_of t.now }
    ensures { result ≡ (row_at t.now i).a }
{
    number_at(t, i * 8 + 2)
}

// How many scalar types stand first in an image of a version.
pub fn scalar_rows(version: u8) -> u16
    ensures { result ≡ scalar_rows version }
{
    3
}

// How many monadic operators it has.
pub fn monadics(version: u8) -> u16
    ensures { result ≡ monadics version }
{
    2
}
