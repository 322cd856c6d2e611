// The frames of a foreign state, found by their links, which may hold any numbers; and a table by which loops over the
// variables of frames pass over those without cells.
#![tactic(auto)]

ghost use Rattle.std.specs.Prelude.{◌≡◌, true, List, [], ◌∷◌, ℕ, suc, ◌+◌, ◌-◌, ◌≤◌, ◌<◌, ltb, length};
ghost use Rattle.prelude.specs.Choice.{◌also◌};
ghost use Rattle.prelude.specs.Cells.{Filled};
ghost use Rattle.image.specs.Rows.{rows_of};
ghost use Rattle.semantics.specs.Layout.{Program};
ghost use Rattle.semantics.specs.Running.{program_of};
ghost use Rattle.asking.specs.Asking.{room_of};
ghost use Rattle.asking.specs.State.{chain, inside_kept, call_kept, ends_at};
ghost use Rattle.asking.specs.Passes.{linked, Walked, newest_below};
ghost use Rattle.access.specs.Ready.{Ready};
ghost use Rattle.unwinding.specs.Links.{link_at, caller_of, spot_of, size_kept, oldest_kept};
ghost use Rattle.unwinding.specs.Blocks.{BLOCKS, Blocks};
ghost use Rattle.unwinding.specs.Going.{Oldest};
ghost use Rattle.unwinding.specs.Next.{NEXT, first_or, next_of};

use access::Loaded;

// A frame: its procedure, and where it begins.
#[derive(Clone, Copy)]
pub struct Spot {
    pub procedure: u16,
    pub base: u32,
}

// How many blocks a store has at most.
pub const BLOCKS: usize = 1024;

// How many cells a block has.
const BLOCK: u32 = 64;

// Where no frame begins.
const NOWHERE: u16 = 65535;

// How many places a table of variables with cells has: one a row, and one behind.
pub const NEXT: usize = 257;

// ---- links

// The number of a link: 65,535 where there is none, as the definition has it. No procedure has that number, and no frame
// begins there.
fn link(store: &[i64], top: u32, at: u32) -> u16
    requires { top ≤ length store.now }
    ensures { result ≡ link_at top store.now at }
{
    let Some(n) = cells::mark_at(store, top, at) else {
        return 65535;
    };
    n
}

// The caller's frame, by the links of the frame at base.
pub fn caller(store: &[i64], top: u32, base: u32) -> Spot
    requires { (top ≤ length store.now) × (base ≤ 65536) }
    ensures { result ≡ caller_of top store.now base }
{
    Spot {
        procedure: link(store, top, base),
        base: link(store, top, base + 2) as u32,
    }
}

// The newest frame that begins below an address, which lies behind the globals and no higher than where the frame at
// base begins: by the links from this frame on.
fn caller_below(store: &[i64], top: u32, base: u32, at: u32) -> Spot
    requires { (top ≤ length store.now) × (base ≤ 65536) }
    ensures { (g : Program) (qs older : List ℕ) (p b e : ℕ) → Walked g qs store.now b e → e ≤ top
        → rows_of g.procedures ≤ 64 → room_of g [] < at → Oldest (p ∷ older) qs → base ≡ room_of g older → at ≤ base
        → result ≡ spot_of (newest_below g qs at) }
{
    let mut b = base;
    // along the links, not by an index
    loop {
        let older = caller(store, top, b);
        if older.base < at || b <= older.base {
            return older;
        }
        b = older.base;
    }
}

// The same, from the frame above the address's block on or from the one at `from`, whichever is older.
pub fn frame_below(store: &[i64], top: u32, blocks: &[u16], from: u32, at: u32) -> Spot
    requires { (top ≤ length store.now) × (BLOCKS ≤ length blocks.now) × (1 ≤ at) × (at ≤ 65536) }
    ensures { (g : Program) (qs older : List ℕ) (p b e : ℕ) → Walked g qs store.now b e → e ≤ top
        → rows_of g.procedures ≤ 64 → Blocks g qs blocks.now → room_of g [] < at
        → Oldest (p ∷ older) qs → from ≡ room_of g older → at ≤ from
        → result ≡ spot_of (newest_below g qs at) }
{
    let block = (at - 1) / BLOCK;
    let above = blocks[block as usize] as u32;
    caller_below(store, top, above.min(from), at)
}

// ---- frames of a program

// Whether statement row r lies in the body of procedure q.
fn inside(loaded: &Loaded, q: u16, r: u32) -> bool
    requires { Ready loaded.now.image.now loaded.now.plan.now }
    ensures { result ≡ inside_kept (program_of loaded.now.image.now) q r }
{
    (r as usize) < image::rows_of(loaded.table(5)) && loaded.procedure_of(r) == q as u32
}

// Whether there is a procedure q.
fn is_procedure(loaded: &Loaded, q: u16) -> bool
    ensures { result ≡ ltb q (rows_of (program_of loaded.now.image.now).procedures) }
{
    (q as usize) < image::rows_of(loaded.table(3))
}

// Whether row `back` follows a call of procedure q in the body of procedure c.
fn call_kept(loaded: &Loaded, q: u16, c: u16, back: u16) -> bool
    requires { Ready loaded.now.image.now loaded.now.plan.now }
    ensures { result ≡ call_kept (program_of loaded.now.image.now) q c back }
{
    if back < 1 {
        return false;
    }
    let call = (back - 1) as u32;
    let row = loaded.statement_at(call);
    row.kind == 1 && row.a == q && inside(loaded, c, call) && inside(loaded, c, back as u32)
}

// Whether there is a procedure q, whose frame at b ends at e.
fn size_kept(loaded: &Loaded, q: u16, b: u32, e: u32) -> bool
    ensures { result ≡ size_kept (program_of loaded.now.image.now) q b e }
{
    if !is_procedure(loaded, q) {
        return false;
    }
    let size = loaded.frame_size(q);
    size <= e && b == e - size
}

// Whether a frame at b is the oldest.
fn oldest_kept(loaded: &Loaded, store: &[i64], top: u32, b: u32) -> bool
    requires { (top ≤ length store.now) × (b ≤ 65536) }
    ensures { result ≡ oldest_kept (program_of loaded.now.image.now) top store.now b }
{
    b == loaded.global_room()
        && link(store, top, b) == 0
        && link(store, top, b + 1) == 0
        && link(store, top, b + 2) == 0
}

// ---- the walk

// Writes one number into the blocks from one on, before another.
fn fill(blocks: &mut [u16], from: usize, to: usize, number: u16)
    requires { (from ≤ to) × (to ≤ length blocks.old) }
    ensures { Filled from (to - from) (λ j. number) blocks.old blocks.new }
{
    blocks[from..to].fill(number);
}

// Whether the links lead from the frame of procedure q, from base to top, to procedure 0's; if so, the frame above each
// block is noted.
pub fn walk(loaded: &Loaded, store: &[i64], q: u16, base: u32, top: u32, blocks: &mut [u16]) -> bool
    requires { (top ≤ length store.now) × (length store.now ≤ 65536)
        × (BLOCKS ≤ length blocks.old) × Ready loaded.now.image.now loaded.now.plan.now }
    ensures value { result ≡ (ends_at (program_of loaded.now.image.now)
        (chain (program_of loaded.now.image.now) store.now (suc base) q base) base top
        also linked (program_of loaded.now.image.now)
        (chain (program_of loaded.now.image.now) store.now (suc base) q base)
        store.now) }
    ensures blocks { result ≡ true → Blocks (program_of loaded.now.image.now)
        (chain (program_of loaded.now.image.now) store.now (suc base) q base)
        blocks.new }
{
    let mut procedure = q;
    let mut start = base;
    let mut end = top;
    // the blocks from `high` on are filled, and the oldest frame above those before it, so far, begins at `above`
    let mut high = BLOCKS;
    let mut above = NOWHERE;
    // along the links, not by an index
    loop {
        if !size_kept(loaded, procedure, start, end) {
            return false;
        }
        let low = (start / BLOCK) as usize;
        fill(blocks, low, high, above);
        high = low;
        above = start as u16;
        if procedure == 0 {
            fill(blocks, 0, high, above);
            return oldest_kept(loaded, store, top, start);
        }
        let older = caller(store, top, start);
        let back = link(store, top, start + 1);
        if !call_kept(loaded, procedure, older.procedure, back) {
            return false;
        }
        if start <= older.base {
            return false;
        }
        procedure = older.procedure;
        end = start;
        start = older.base;
    }
}

// ---- variables with cells

// Variable row k where it has cells, or the row given.
fn first_or(loaded: &Loaded, k: u16, behind: u16) -> u16
    requires { k < rows_of (program_of loaded.now.image.now).variables }
    ensures { result ≡ first_or (program_of loaded.now.image.now) k behind }
{
    if loaded.width_of(k as u32) == 0 {
        behind
    } else {
        k
    }
}

// Writes at each place, from the last down, the first variable row from there on that has cells, or how many rows there
// are where none has.
pub fn fill_next(loaded: &Loaded, next: &mut [u16])
    requires { NEXT ≤ length next.old }
    ensures { Filled 0 (rows_of (program_of loaded.now.image.now).variables + 1)
        (next_of (program_of loaded.now.image.now)) next.old next.new }
{
    let rows = image::rows_of(loaded.table(2));
    let mut first = rows as u16;
    next[rows] = first;
    for i in (0..rows).rev() {
        first = first_or(loaded, i as u16, first);
        next[i] = first;
    }
}
