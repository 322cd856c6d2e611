// Which types every type row extends, worked out once, as bits: a word for each row, of 32 rows that it may extend.
#![tactic(auto)]

ghost use Rattle.std.specs.Prelude.{◌≡◌, ◌+◌, ◌≤◌, ◌<◌, length, get_or};
ghost use Rattle.prelude.specs.Bits.{bit_of};
ghost use Rattle.prelude.specs.Cells.{Filled};
ghost use Rattle.prelude.specs.Rec.{below};
ghost use Rattle.shapes.specs.Forms.{form, base_of, of_base};
ghost use Rattle.ancestors.specs.Ancestors.{own_bit, word_of};

// How many type rows there are at most.
const ROWS: usize = 64;

// The last bit of a word.
const LAST: usize = 31;

// Bit i of a word.
pub fn holds(word: u32, i: u16) -> bool
    requires { i < 32 }
    ensures { result ≡ bit_of word i }
{
    (word >> (i as u32)) % 2 == 1
}

// The own bit of type row r in a word whose bit 0 is row `low`, 0 where it has none.
fn own_bit(low: usize, r: usize) -> u32
    ensures { result ≡ own_bit low r }
{
    if r < low {
        return 0;
    }
    let i = r - low;
    if LAST < i {
        return 0;
    }
    1u32 << (i as u32)
}

// The word of type row r's base, which is a lower row, 0 where there is none.
fn base_word(t: &[u8], plan: &[u32], from: usize, r: usize) -> u32
    requires { (from ≤ 65536) × (r ≤ 64) × (from + r ≤ length plan.now) }
    ensures { result ≡ of_base 0 (below 0 r (λ k. get_or plan.now (from + k) 0))
        (base_of (form t.now r)) }
{
    let row = image::row_at(t, r);
    // By `checked_sub` each row that has no base would cost thirteen instructions more: no branch passes them.
    let base = shapes::base_of(row) as usize;
    if base == 0 {
        return 0;
    }
    if r < base {
        return 0;
    }
    plan[from + base - 1]
}

// Writes the word of every type row, whose bit 0 is row `low`.
pub fn fill(t: &[u8], plan: &mut [u32], from: usize, low: usize)
    requires { (from ≤ 65536) × (from + 64 ≤ length plan.old) }
    ensures { Filled from 64 (word_of t.now low) plan.old plan.new }
{
    for r in 0..ROWS {
        plan[from + r] = base_word(t, plan, from, r) | own_bit(low, r);
    }
}
