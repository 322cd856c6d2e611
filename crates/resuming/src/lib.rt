// Question 14: whether a run can go on from an earlier result and the store that it left.
#![tactic(auto)]

ghost use Rattle.std.specs.Prelude.{◌≡◌, suc, ◌+◌, ◌≤◌, ◌<◌, length, drop};
ghost use Rattle.image.specs.Rows.{row_at, rows_of};
ghost use Rattle.frames.specs.Procedures.{first_variable, claimed_by};
ghost use Rattle.places.specs.Places.{width_of, room_from, frame_size};
ghost use Rattle.semantics.specs.Running.{program_of};
ghost use Rattle.asking.specs.State.{chain, sound_of};
ghost use Rattle.asking.specs.Passes.{Walked, variables_pass, frames_pass, value_test, values_pass};
ghost use Rattle.asking.specs.Continuing.{unfinished, within_lent, mark_within, question14};
ghost use Rattle.contents.specs.Reading.{Even};
ghost use Rattle.access.specs.Ready.{Ready};
ghost use Rattle.unwinding.specs.Next.{Skips};
ghost use Rattle.resuming.specs.Reading.{frames_sound};

use access::Loaded;
use semantics::{Registers, RunResult};
use unwinding::{BLOCKS, NEXT};

// How many types an image has at most.
const TYPES: usize = 64;

// How many links a frame begins with.
const LINKS: u32 = 3;

// ---- values

// A foreign state's store, as the values in it are read: by an image, the kinds of its types' cells, and a table by
// which loops over variables jump over those without cells.
#[derive(Clone, Copy)]
struct Values<'a> {
    loaded: Loaded<'a>,
    even: &'a [u8],
    next: &'a [u16],
    store: &'a [i64],
    ghost evens: { Even (program_of loaded.image.now).types (program_of loaded.image.now).fields even.now },
    ghost skips: { Skips (program_of loaded.image.now) next.now },
    ghost most: { length store.now ≤ 65536 },
}

impl<'a> Values<'a> {
    // Whether the cells from a on hold values of variable row k's layout, where it is no VAR parameter.
    fn variable_holds(&self, k: u32, a: u32) -> bool
        requires { (k < rows_of (program_of self.now.loaded.image.now).variables)
            × (a + width_of (program_of self.now.loaded.image.now).types (program_of self.now.loaded.image.now).fields
            (program_of self.now.loaded.image.now).variables k ≤ length self.now.store.now) }
        ensures { result ≡ value_test (program_of self.now.loaded.image.now) k (drop a self.now.store.now) }
    {
        let row = self.loaded.variable_at(k);
        if row.kind == 3 {
            return true;
        }
        let t = self.loaded.table(0);
        let f = self.loaded.table(1);
        let plan = self.loaded.plan;
        let even = self.even;
        let store = self.store;
        contents::holds_values(t, f, plan, even, store, row.a, a)
    }

    // The same of n variables from row k on, of which the first begins at a; those without cells are left out.
    fn variables_hold(&self, k: u32, n: u32, a: u32) -> bool
        requires { (k + n ≤ rows_of (program_of self.now.loaded.image.now).variables)
            × (a + room_from (program_of self.now.loaded.image.now).types (program_of self.now.loaded.image.now).fields
            (program_of self.now.loaded.image.now).variables k n ≤ length self.now.store.now) }
        ensures { result ≡ variables_pass (program_of self.now.loaded.image.now)
            (value_test (program_of self.now.loaded.image.now)) k n (drop a self.now.store.now) }
    {
        let end = k + n;
        let mut j = self.next[k as usize] as u32;
        let mut at = a;
        // by the table's jumps, not one by one
        while j < end {
            if !self.variable_holds(j, at) {
                return false;
            }
            at += self.loaded.width_of(j);
            j = self.next[j as usize + 1] as u32;
        }
        true
    }

    // The same of the frame of procedure q that begins at base.
    fn frame_holds(&self, q: u16, base: u32) -> bool
        requires { (q < rows_of (program_of self.now.loaded.image.now).procedures)
            × (base + frame_size (program_of self.now.loaded.image.now).types
            (program_of self.now.loaded.image.now).fields (program_of self.now.loaded.image.now).variables
            (program_of self.now.loaded.image.now).procedures q ≤ length self.now.store.now) }
        ensures { result ≡ variables_pass (program_of self.now.loaded.image.now)
            (value_test (program_of self.now.loaded.image.now))
            (first_variable (program_of self.now.loaded.image.now).variables
            (program_of self.now.loaded.image.now).procedures q)
            (claimed_by (row_at (program_of self.now.loaded.image.now).procedures q))
            (drop (base + 3) self.now.store.now) }
    {
        let first = self.loaded.first_variable(q);
        let own = self.loaded.claimed_by(q);
        self.variables_hold(first, own, base + LINKS)
    }

    // The same of every frame, from that of procedure q on, which begins at base and ends at top.
    fn frames_hold(&self, q: u16, base: u32, top: u32) -> bool
        requires { (top ≤ length self.now.store.now)
            × Walked (program_of self.now.loaded.image.now)
            (chain (program_of self.now.loaded.image.now) self.now.store.now (suc base) q base)
            self.now.store.now base top }
        ensures { result ≡ frames_pass (program_of self.now.loaded.image.now)
            (λ older. value_test (program_of self.now.loaded.image.now))
            (chain (program_of self.now.loaded.image.now) self.now.store.now (suc base) q base) self.now.store.now }
    {
        let mut p = q;
        let mut b = base;
        // along the links, not by an index
        loop {
            if !self.frame_holds(p, b) {
                return false;
            }
            if p == 0 {
                return true;
            }
            let store = self.store;
            let older = unwinding::caller(store, top, b);
            p = older.procedure;
            b = older.base;
        }
    }
}

// The globals' values and every frame's.
fn values_hold(loaded: &Loaded, next: &[u16], store: &[i64], q: u16, base: u32, top: u32) -> bool
    requires { Skips (program_of loaded.now.image.now) next.now
        × (top ≤ length store.now) × (length store.now ≤ 65536)
        × Walked (program_of loaded.now.image.now) (chain (program_of loaded.now.image.now) store.now (suc base) q base)
        store.now base top }
    ensures { result ≡ values_pass (program_of loaded.now.image.now)
        (chain (program_of loaded.now.image.now) store.now (suc base) q base) store.now }
{
    let mut even = [0u8; TYPES];
    contents::fill_even(loaded.table(0), loaded.table(1), &mut even);
    let values = Values {
        loaded: *loaded,
        even: &even,
        next,
        store,
    };
    values.variables_hold(0, loaded.first_variable(0), 0) && values.frames_hold(q, base, top)
}

// ---- the state

// Whether the links lead from the frame of procedure q, from base to top, to all others, and these hold what they
// should.
fn frames_sound(loaded: &Loaded, store: &[i64], q: u16, base: u32, top: u32) -> bool
    requires { (top ≤ length store.now) × (length store.now ≤ 65536)
        × Ready loaded.now.image.now loaded.now.plan.now }
    ensures { result ≡ frames_sound (program_of loaded.now.image.now)
        (chain (program_of loaded.now.image.now) store.now (suc base) q base) store.now
        base top }
{
    let mut blocks = [0u16; BLOCKS];
    if !unwinding::walk(loaded, store, q, base, top, &mut blocks) {
        return false;
    }
    let mut next = [0u16; NEXT];
    unwinding::fill_next(loaded, &mut next);
    values_hold(loaded, &next, store, q, base, top)
        && referents::references(loaded, &next, store, q, base, top, &blocks)
}

// Whether the state is sound, where top lies within the store.
fn sound(loaded: &Loaded, store: &[i64], s: Registers) -> bool
    requires { (s.top ≤ length store.now) × (length store.now ≤ 65536)
        × Ready loaded.now.image.now loaded.now.plan.now }
    ensures { result ≡ sound_of (program_of loaded.now.image.now) s store.now }
{
    if image::rows_of(loaded.table(5)) <= s.row as usize {
        return false;
    }
    let q = loaded.procedure_of(s.row) as u16;
    frames_sound(loaded, store, q, s.base, s.top)
}

// ---- question 14

// Whether a result is that of a run which was not refused, and used up its steps.
fn is_unfinished(r: RunResult) -> bool
    ensures { result ≡ unfinished r }
{
    r.refusal == 0 && r.fault == 0 && r.outcome == 0 && r.trap == 0 && r.halt == 0
}

// Whether its counts lie within the lists, and its steps leave room for these.
fn is_within(input: &[i32], output: &[i32], r: RunResult, steps: u32) -> bool
    ensures { result ≡ within_lent input.now output.now r steps }
{
    r.at.read <= input.len() as u64
        && r.at.written <= output.len() as u64
        && steps <= u32::MAX - r.steps
}

// Whether its mark is not below top, nor above the store's length.
fn is_marked(store: &[i64], r: RunResult) -> bool
    ensures { result ≡ mark_within store.now r }
{
    r.at.top <= r.mark && r.mark as usize <= store.len()
}

// Whether a run can go on from an earlier result and this store, for so many steps.
pub fn continuable(
    loaded: &Loaded,
    input: &[i32],
    store: &[i64],
    output: &[i32],
    from: RunResult,
    steps: u32,
) -> bool
    requires { (length store.now ≤ 65536) × Ready loaded.now.image.now loaded.now.plan.now }
    ensures { result ≡ question14 (program_of loaded.now.image.now) input.now store.now
        output.now from steps }
{
    is_unfinished(from)
        && is_within(input, output, from, steps)
        && is_marked(store, from)
        && sound(loaded, store, from.at)
}
