// Cells of the lent store: reading one by its kind, and writing cells that follow one another.
#![tactic(auto)]

ghost use Rattle.std.specs.Prelude.{◌≡◌, List, [], ◌∷◌, ℕ, ◌+◌, ◌≤◌, ◌<◌, ℤ, pos, length, replicate};
ghost use Rattle.semantics.specs.Memory.{mark_of, bare, value_at, mark_at, part_at, overwrite};

use values::{Stop, Value};

// ---- reading

// The value of a scalar kind in the cell at an address below top.
pub fn value_at(store: &[i64], top: u32, kind: u16, address: u32) -> Result<Value, Stop>
    requires { top ≤ length store.now }
    ensures { result ≡ value_at bare top store.now kind address }
{
    if top <= address {
        return Err(Stop::Stuck);
    }
    values::cell(kind, store[address as usize])
}

// A number as a link, an address or a type. (Not by std's try_from: see values::is_integer.)
#[tactic(auto, using(crate::proofs::Marks::mark_negative, crate::proofs::Marks::mark_large, crate::proofs::Marks::mark_is, crate::proofs::Marks::mark_fits, values::proofs::Numbers::plain64))]
fn mark_of(z: i64) -> Option<u16>
    ensures { result ≡ mark_of z }
{
    if z < 0 || 65535 < z {
        return None;
    }
    Some(z as u16)
}

// The link, address or type in the cell at an address below top. The store does not tell the three apart.
pub fn mark_at(store: &[i64], top: u32, address: u32) -> Option<u16>
    requires { top ≤ length store.now }
    ensures { (kind : ℕ) → result ≡ mark_at bare top store.now kind address }
{
    if top <= address {
        return None;
    }
    mark_of(store[address as usize])
}

// ---- writing

// One cell.
pub fn put(store: &mut [i64], a: u32, z: i64)
    requires { a < length store.old }
    ensures { store.new ≡ overwrite store.old a (z ∷ []) }
{
    store[a as usize] = z;
}

// Two cells.
pub fn put_pair(store: &mut [i64], a: u32, y: i64, z: i64)
    requires { a + 1 < length store.old }
    ensures { store.new ≡ overwrite store.old a (y ∷ z ∷ []) }
{
    let at = a as usize;
    store[at] = y;
    store[at + 1] = z;
}

// Zero in n cells.
pub fn zero(store: &mut [i64], a: u32, n: u32)
    requires { a + n ≤ length store.old }
    ensures { store.new ≡ overwrite store.old a (replicate n (pos 0)) }
{
    let start = a as usize;
    let count = n as usize;
    // no `fill`: at 2 to 32 cells it takes up to twice the time
    for cell in &mut store[start..start + count] {
        *cell = 0;
    }
}

// ---- copying

// n cells to a place not above them: the lowest first.
fn copy_down(store: &mut [i64], from: usize, to: usize, n: usize)
    requires { (from + n ≤ length store.old) × (to ≤ from) }
    ensures { store.new ≡ overwrite store.old to (part_at store.old from n) }
{
    for i in 0..n {
        store[to + i] = store[from + i];
    }
}

// n cells to a place not below them: the highest first.
fn copy_up(store: &mut [i64], from: usize, to: usize, n: usize)
    requires { (to + n ≤ length store.old) × (from ≤ to) }
    ensures { store.new ≡ overwrite store.old to (part_at store.old from n) }
{
    for left in (0..n).rev() {
        store[to + left] = store[from + left];
    }
}

// n cells, as if all were read before any is written. (By `copy_within` the module would have pointers whose place hangs
// on the processor: docs/DECISIONS.md, D121.)
pub fn copy(store: &mut [i64], from: u32, to: u32, n: u32)
    requires { (from + n ≤ length store.old) × (to + n ≤ length store.old) }
    ensures { store.new ≡ overwrite store.old to (part_at store.old from n) }
{
    let source = from as usize;
    let target = to as usize;
    let count = n as usize;
    if source < target {
        copy_up(store, source, target, count);
    } else {
        copy_down(store, source, target, count);
    }
}

// n cells from below top to a place in the part from top on, each written through that part.
pub fn copy_above(store: &mut [i64], top: u32, from: u32, place: u32, n: u32)
    requires { (from + n ≤ top) × (top + (place + n) ≤ length store.old) × (length store.old ≤ 65536) }
    ensures { store.new
        ≡ overwrite store.old (top + place) (part_at store.old from n) }
{
    let start = top as usize;
    for i in 0..n {
        let z = store[(from + i) as usize];
        put(&mut store[start..], place + i, z);
    }
}
