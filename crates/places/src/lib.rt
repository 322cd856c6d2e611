// Places of variables and sizes of frames: the plan's part of variables and procedures.
#![tactic(auto)]

ghost use Rattle.std.specs.Prelude.{◌≡◌, ◌+◌, ◌≤◌, ◌<◌, length};
ghost use Rattle.image.specs.Rows.{rows_of};
ghost use Rattle.sizes.specs.Cells.{PLACES};
ghost use Rattle.places.specs.Places.{width_by, room_by, Firsts, Places};
ghost use Rattle.places.specs.Filling.{held, VariablesFit, FramesFit, Framed, PlacesFit};
ghost use Rattle.prelude.specs.Cells.{Filled};

use sizes::{FIRSTS, FRAMES, GLOBALS, PLACES};

// The first variable of each procedure, and the row behind the last procedure's variables.
pub fn first_variables(v: &[u8], p: &[u8], firsts: &mut [u32])
    requires { (rows_of v.now ≤ 256) × (rows_of p.now ≤ 64) × (rows_of p.now < length firsts.old) }
    ensures { Firsts v.now p.now firsts.old firsts.new }
{
    let n = image::rows_of(p);
    let mut first = frames::globals(v) as u32;
    for q in 0..n {
        let row = image::row_at(p, q);
        firsts[q] = first;
        first += row.b as u32 + row.c as u32;
    }
    firsts[n] = first;
}

// How many cells variable row k has, by the plan's sizes.
#[tactic(auto, unfolding(crate::specs::Places::width_by, prelude::specs::Choice::choose))]
fn width_at(v: &[u8], plan: &[u32], k: usize) -> u32
    ensures { result ≡ width_by (held plan.now) v.now k }
{
    let row = image::row_at(v, k);
    if row.kind == 3 {
        2
    } else {
        sizes::cell(plan, row.a as usize)
    }
}

// Writes the places of n variables from row k on, the first at `at`, and gives the place behind them.
fn place_run(v: &[u8], plan: &mut [u32], k: usize, n: usize, at: u32) -> u32
    requires { VariablesFit v.now plan.old × (k + n ≤ rows_of v.now) × (at ≤ 3) }
    ensures value { result ≡ at + room_by (held plan.old) v.now k n }
    ensures places { Filled (PLACES + k) n (λ j. at + room_by (held plan.old) v.now k j)
        plan.old plan.new }
{
    let mut place = at;
    for i in k..k + n {
        let width = width_at(v, plan, i);
        plan[PLACES + i] = place;
        place += width;
    }
    place
}

// Writes the places of the procedures' variables, and the sizes of their frames.
fn place_frames(v: &[u8], p: &[u8], plan: &mut [u32])
    requires { FramesFit v.now p.now plan.old }
    ensures { Framed (held plan.old) v.now p.now (rows_of p.now)
        plan.old plan.new }
{
    let n = image::rows_of(p);
    for q in 0..n {
        let row = image::row_at(p, q);
        let first = sizes::cell(plan, FIRSTS + q) as usize;
        let size = place_run(v, plan, first, row.b as usize + row.c as usize, 3);
        plan[FRAMES + q] = size;
    }
}

// Writes what the plan holds of the variables and procedures of accepted tables. The sizes are in the plan already:
// t and f, whose sizes they are, are named by the promise alone.
pub fn fill_places(t: &[u8], f: &[u8], v: &[u8], p: &[u8], plan: &mut [u32])
    requires { PlacesFit t.now f.now v.now p.now plan.old }
    ensures { Places t.now f.now v.now p.now plan.old
        plan.new }
{
    first_variables(v, p, &mut plan[FIRSTS..]);
    let globals = frames::globals(v);
    let end = place_run(v, plan, 0, globals, 0);
    plan[GLOBALS] = end;
    place_frames(v, p, plan);
}
