// Whether the VAR parameters of all frames refer to objects.
#![tactic(auto)]

ghost use Rattle.std.specs.Prelude.{◌≡◌, List, ◌∷◌, ℕ, suc, ◌+◌, ◌-◌, ◌≤◌, ◌<◌, leb, get_or, drop};
ghost use Rattle.prelude.specs.Choice.{◌also◌};
ghost use Rattle.prelude.specs.Bits.{bit_of};
ghost use Rattle.image.specs.Rows.{row_at, rows_of};
ghost use Rattle.frames.specs.Procedures.{first_variable, claimed_by};
ghost use Rattle.places.specs.Places.{width_of, frame_size};
ghost use Rattle.semantics.specs.Layout.{place_of};
ghost use Rattle.semantics.specs.Running.{program_of};
ghost use Rattle.objects.specs.Tables.{ROWS, AllEdges};
ghost use Rattle.asking.specs.Asking.{room_of, object_at};
ghost use Rattle.asking.specs.State.{reference_kept, chain};
ghost use Rattle.asking.specs.Passes.{variables_pass, reference_test, references_pass};
ghost use Rattle.unwinding.specs.Going.{Oldest};
ghost use Rattle.unwinding.specs.Next.{Skips};
ghost use Rattle.referents.specs.Reaching.{Placed, Reached, Firsts, Ahead, in_variable, in_places, left_places};
ghost use Rattle.referents.specs.Reading.{Lent, Framed, Stacked, Asked};

use access::Loaded;
use image::Row;
use objects::{ROWS, Words};

// ---- objects in variables

// Of n variables from row k on the last that begins below an address, by halving; row k where none does. So those
// before it end below the address.
fn first_reaching(loaded: &Loaded, k: u32, n: u32, at: u32) -> u32
    requires { (k + n ≤ rows_of (program_of loaded.now.image.now).variables) }
    ensures { Reached (program_of loaded.now.image.now) k n at result }
{
    let mut low = k;
    let mut high = k + n;
    // by halving: a plan is no slice of places alone, which `partition_point` would want
    while 1 < high - low {
        let middle = low + (high - low) / 2;
        if loaded.place_of(middle) < at {
            low = middle;
        } else {
            high = middle;
        }
    }
    low
}

// Whether an object declared with type w begins o cells into variable row k: the two cells of a VAR parameter are none.
fn in_variable(loaded: &Loaded, starts: &Words, ends: &Words, w: u16, k: u32, o: u32) -> bool
    requires { Lent loaded.now.image.now loaded.now.plan.now starts.now ends.now
        × (w < rows_of (program_of loaded.now.image.now).types)
        × (k < rows_of (program_of loaded.now.image.now).variables) }
    ensures { result ≡ in_variable (program_of loaded.now.image.now) w k o }
{
    let row = loaded.variable_at(k);
    let t = loaded.table(0);
    let f = loaded.table(1);
    let plan = loaded.plan;
    row.kind <= 2 && objects::holds(t, f, plan, starts, ends, w, row.a, o)
}

// Whether one declared with type w begins at the start of the variable in this row, where words say of each type what
// begins at its start.
fn at_start(starts: &Words, w: u16, row: Row) -> bool
    requires { (w < ROWS) × (row.a < ROWS) }
    ensures { result ≡ (leb row.kind 2 also bit_of (get_or starts.now row.a 0) w) }
{
    objects::marked(starts, w, row.a) && row.kind <= 2
}

// Whether one begins at an address in the variables from row k to row e, none of which begins below it: at the start of
// those that begin there.
fn starts_there(loaded: &Loaded, v: &[u8], starts: &Words, w: u16, k: u32, e: u32, at: u32) -> bool
    requires { (v.now ≡ (program_of loaded.now.image.now).variables)
        × (e ≤ rows_of v.now) × (w < ROWS) }
    ensures { (i n lead : ℕ) → Firsts (program_of loaded.now.image.now) w starts.now
        → Ahead (program_of loaded.now.image.now) i n lead at k e
        → result ≡ left_places (program_of loaded.now.image.now) w i n lead at k }
{
    for j in k..e {
        if at < loaded.place_of(j) {
            return false;
        }
        if at_start(starts, w, image::row_at(v, j as usize)) {
            return true;
        }
    }
    false
}

// Whether one begins at an address in n variables from row k on, which the plan has one behind the other.
fn in_places(loaded: &Loaded, starts: &Words, ends: &Words, w: u16, k: u32, n: u32, at: u32) -> bool
    requires { Lent loaded.now.image.now loaded.now.plan.now starts.now ends.now
        × (w < rows_of (program_of loaded.now.image.now).types)
        × (k + n ≤ rows_of (program_of loaded.now.image.now).variables) }
    ensures { (lead : ℕ) → Placed (program_of loaded.now.image.now) k n lead
        → result ≡ in_places (program_of loaded.now.image.now) w k n lead at }
{
    if n == 0 {
        return false;
    }
    let j = first_reaching(loaded, k, n, at);
    let place = loaded.place_of(j);
    if at < place {
        return false;
    }
    let v = loaded.table(2);
    starts_there(loaded, v, starts, w, j + 1, k + n, at)
        || in_variable(loaded, starts, ends, w, j, at - place)
}

// ---- objects in frames

// A foreign state in the cells below top, with the frame above each block, and what begins at the edges of the types.
#[derive(Clone, Copy)]
struct State<'a> {
    loaded: Loaded<'a>,
    starts: &'a Words,
    ends: &'a Words,
    store: &'a [i64],
    top: u32,
    blocks: &'a [u16],
    ghost edges: { AllEdges (program_of loaded.image.now).types (program_of loaded.image.now).fields
        loaded.plan.now starts.now ends.now },
}

impl<'a> State<'a> {
    // Whether an object declared with type w begins at an address that is no higher than `from`, where a frame begins:
    // in the globals, or in the newest frame that begins below the address.
    fn object_at(&self, from: u32, w: u16, at: u32) -> bool
        requires { Stacked (program_of self.now.loaded.image.now) self.now.store.now self.now.top
            self.now.blocks.now from
            × (w < rows_of (program_of self.now.loaded.image.now).types) × (at ≤ from) × (from < 65536) }
        ensures { (p : ℕ) (qs older : List ℕ) → Framed (program_of self.now.loaded.image.now) self.now.store.now
            self.now.top self.now.blocks.now qs → Oldest (p ∷ older) qs
            → from ≡ room_of (program_of self.now.loaded.image.now) older
            → result ≡ object_at (program_of self.now.loaded.image.now) w qs at }
    {
        let loaded = &self.loaded;
        let starts = self.starts;
        let ends = self.ends;
        if at <= loaded.global_room() {
            let n = loaded.first_variable(0);
            return in_places(loaded, starts, ends, w, 0, n, at);
        }
        let store = self.store;
        let blocks = self.blocks;
        let frame = unwinding::frame_below(store, self.top, blocks, from, at);
        let first = loaded.first_variable(frame.procedure);
        let n = loaded.claimed_by(frame.procedure);
        in_places(loaded, starts, ends, w, first, n, at - frame.base)
    }

    // ---- references

    // Whether the two cells of a VAR parameter of type row r, at a in the frame that begins at base, refer to an object
    // in the older frames.
    fn reference(&self, base: u32, r: u16, a: u32) -> bool
        requires { Stacked (program_of self.now.loaded.image.now) self.now.store.now self.now.top
            self.now.blocks.now base
            × (r < rows_of (program_of self.now.loaded.image.now).types) × (base < 65536) × (a + 2 ≤ self.now.top) }
        ensures { (p : ℕ) (qs older : List ℕ) → Framed (program_of self.now.loaded.image.now) self.now.store.now
            self.now.top self.now.blocks.now qs → Oldest (p ∷ older) qs
            → base ≡ room_of (program_of self.now.loaded.image.now) older
            → result ≡ reference_kept (program_of self.now.loaded.image.now) older r (drop a self.now.store.now) }
    {
        let store = self.store;
        let Some(address) = cells::mark_at(store, self.top, a) else {
            return false;
        };
        let Some(dynamic) = cells::mark_at(store, self.top, a + 1) else {
            return false;
        };
        let at = address as u32;
        self.loaded.extends(dynamic, r) && at <= base && self.object_at(base, dynamic, at)
    }

    // Whether variable row k of the frame that begins at base does, where it is a VAR parameter.
    fn parameter(&self, base: u32, k: u32) -> bool
        requires { Stacked (program_of self.now.loaded.image.now) self.now.store.now self.now.top
            self.now.blocks.now base
            × (k < rows_of (program_of self.now.loaded.image.now).variables) × (base < 65536)
            × (base + place_of (program_of self.now.loaded.image.now) k
            + width_of (program_of self.now.loaded.image.now).types (program_of self.now.loaded.image.now).fields
            (program_of self.now.loaded.image.now).variables k ≤ self.now.top) }
        ensures { (p : ℕ) (qs older : List ℕ) → Framed (program_of self.now.loaded.image.now) self.now.store.now
            self.now.top self.now.blocks.now qs → Oldest (p ∷ older) qs
            → base ≡ room_of (program_of self.now.loaded.image.now) older
            → result ≡ reference_test (program_of self.now.loaded.image.now) older k
            (drop (base + place_of (program_of self.now.loaded.image.now) k) self.now.store.now) }
    {
        let row = self.loaded.variable_at(k);
        row.kind != 3 || self.reference(base, row.a, base + self.loaded.place_of(k))
    }

    // Whether the VAR parameters of the frame of procedure q at base do: locals are none, nor are variables without
    // cells, over which `next` jumps.
    fn frame_references(&self, next: &[u16], q: u16, base: u32) -> bool
        requires { Skips (program_of self.now.loaded.image.now) next.now
            × Stacked (program_of self.now.loaded.image.now) self.now.store.now self.now.top
            self.now.blocks.now base
            × (q < rows_of (program_of self.now.loaded.image.now).procedures)
            × (base + frame_size (program_of self.now.loaded.image.now).types
            (program_of self.now.loaded.image.now).fields (program_of self.now.loaded.image.now).variables
            (program_of self.now.loaded.image.now).procedures q ≤ self.now.top) }
        ensures { (p : ℕ) (qs older : List ℕ) → Framed (program_of self.now.loaded.image.now) self.now.store.now
            self.now.top self.now.blocks.now qs → Oldest (p ∷ older) qs
            → base ≡ room_of (program_of self.now.loaded.image.now) older
            → result ≡ variables_pass (program_of self.now.loaded.image.now)
            (reference_test (program_of self.now.loaded.image.now) older)
            (first_variable (program_of self.now.loaded.image.now).variables
            (program_of self.now.loaded.image.now).procedures q)
            (claimed_by (row_at (program_of self.now.loaded.image.now).procedures q))
            (drop (base + 3) self.now.store.now) }
    {
        let procedure = self.loaded.procedure_at(q);
        let first = self.loaded.first_variable(q);
        let end = first + procedure.b as u32;
        let mut k = next[first as usize] as u32;
        while k < end {
            if !self.parameter(base, k) {
                return false;
            }
            k = next[k as usize + 1] as u32;
        }
        true
    }

    // Whether those of all frames do, from that of procedure q at base to the oldest.
    fn all_references(&self, next: &[u16], q: u16, base: u32) -> bool
        requires { Skips (program_of self.now.loaded.image.now) next.now
            × Asked (program_of self.now.loaded.image.now) self.now.store.now q base self.now.top
            self.now.blocks.now }
        ensures { result ≡ references_pass (program_of self.now.loaded.image.now)
            (chain (program_of self.now.loaded.image.now) self.now.store.now (suc base) q base) self.now.store.now }
    {
        let mut procedure = q;
        let mut at = base;
        // along the links, not by an index
        loop {
            if !self.frame_references(next, procedure, at) {
                return false;
            }
            if procedure == 0 {
                return true;
            }
            let store = self.store;
            let caller = unwinding::caller(store, self.top, at);
            procedure = caller.procedure;
            at = caller.base;
        }
    }
}

// The same with tables of its own, from the newest frame on: that of procedure q, from base to top.
pub fn references(
    loaded: &Loaded,
    next: &[u16],
    store: &[i64],
    q: u16,
    base: u32,
    top: u32,
    blocks: &[u16],
) -> bool
    requires { Skips (program_of loaded.now.image.now) next.now
        × Asked (program_of loaded.now.image.now) store.now q base top blocks.now }
    ensures { result ≡ references_pass (program_of loaded.now.image.now)
        (chain (program_of loaded.now.image.now) store.now (suc base) q base) store.now }
{
    let t = loaded.table(0);
    let f = loaded.table(1);
    let mut starts = [0u64; ROWS];
    let mut ends = [0u64; ROWS];
    let plan = loaded.plan;
    objects::fill(t, f, plan, &mut starts, &mut ends);
    let state = State {
        loaded: *loaded,
        starts: &starts,
        ends: &ends,
        store,
        top,
        blocks,
    };
    state.all_references(next, q, base)
}
