// The types table: question 4, and the plan that it fills.
#![tactic(auto)]

ghost use Rattle.std.specs.Prelude.{◌≡◌, ◌+◌, ◌≤◌, ◌<◌, length, get_or};
ghost use Rattle.image.specs.Rows.{rows_of, row_at};
ghost use Rattle.shapes.specs.Forms.{of_base};
ghost use Rattle.sizes.specs.Cells.{INHERITED, PLACES};
ghost use Rattle.types.specs.Plan.{Plan, Rest, passed};
ghost use Rattle.types.specs.Filling.{OffsetsFit, Offsets, Ready};
ghost use Rattle.types.specs.Question.{question4};

use image::Row;
use sizes::{INHERITED, OFFSETS};

// How many fields a record has from its base, by the plan's number for the base.
fn inherited(t: &[u8], plan: &[u32], a: u16) -> u32
    requires { of_base 0 (λ b. get_or plan.now (INHERITED + b) 0) a ≤ 65535 }
    ensures { result ≡ of_base 0 (λ b. get_or plan.now (INHERITED + b) 0 + (row_at t.now b).c) a }
{
    // By `checked_sub` each row that has no base would take as long as one that has.
    if a == 0 {
        return 0;
    }
    let base = (a as usize) - 1;
    let row = image::row_at(t, base);
    let own = row.c;
    let above = sizes::cell(plan, INHERITED + base);
    above + (own as u32)
}

// Where n field rows from row k on begin in their record, the first at `at`.
fn plan_offsets(f: &[u8], plan: &mut [u32], k: usize, n: u16, at: u32)
    requires { OffsetsFit f.now plan.old k n at }
    ensures { Offsets f.now k n at plan.old plan.new }
{
    let mut place = at;
    for i in k..k + n as usize {
        let size = sizes::cell(plan, image::row_at(f, i).a as usize);
        plan[OFFSETS + i] = place;
        place += size;
    }
}

// Writes what the plan holds of type row r.
fn plan_row(t: &[u8], f: &[u8], plan: &mut [u32], used: usize, r: usize, row: Row, size: u32)
    requires { Ready t.now f.now plan.old used r row size }
    ensures plan { Plan t.now f.now (r + 1) plan.new }
    ensures rest { Rest t.now (r + 1) plan.old plan.new }
{
    let base = shapes::base_of(row);
    let above = inherited(t, plan, base);
    let at = sizes::base_size(plan, base);
    let own = shapes::claimed(row);
    plan_offsets(f, plan, used, own, at);
    plan[INHERITED + r] = above;
    plan[r] = size;
}

// Question 4 of an image of a version, with the plan of the rows that it passes.
pub fn check_types(version: u8, t: &[u8], f: &[u8], plan: &mut [u32]) -> Result<(), u16>
    requires { (rows_of t.now ≤ 64) × (rows_of f.now ≤ 256) × (PLACES ≤ length plan.old) }
    ensures value { result ≡ question4 version t.now f.now }
    ensures plan { Plan t.now f.now (passed t.now result) plan.new }
    ensures rest { Rest t.now (passed t.now result) plan.old plan.new }
{
    let types = image::rows_of(t);
    let mut used: usize = 0;
    for r in 0..types {
        let row = image::row_at(t, r);
        if !shapes::shape_kept(version, t, f, used, r, row) {
            return Err(r as u16);
        }
        let size = sizes::type_size(f, plan, row);
        if 4096 < size {
            return Err(r as u16);
        }
        plan_row(t, f, plan, used, r, row, size as u32);
        used += shapes::claimed(row) as usize;
    }
    if used == image::rows_of(f) {
        return Ok(());
    }
    Err(types as u16)
}
