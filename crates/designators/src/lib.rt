// Designators: for each node row the type of the object that it designates, and of a field where it begins in which
// record. So a step climbs no chain of bases to find a field.
#![tactic(auto)]

ghost use Rattle.std.specs.Prelude.{◌≡◌, ◌+◌, ◌≤◌, length, get_or};
ghost use Rattle.prelude.specs.Cells.{Filled};
ghost use Rattle.prelude.specs.Rec.{below};
ghost use Rattle.image.specs.Rows.{rows_of};
ghost use Rattle.sizes.specs.Cells.{NODES, RUN_PLAN};
ghost use Rattle.types.specs.Question.{TypesAccepted};
ghost use Rattle.types.specs.Plan.{Plan};
ghost use Rattle.designators.specs.Designators.{UNKNOWN, offset_in, type_in, record_in, field_cell, typed_cell};
ghost use Rattle.designators.specs.Designators.{cell_by, cell_of};

use image::Row;
use relations::FieldAt;
use sizes::NODES;

// The cell of a node that designates nothing, or whose numbers have no room: the plan holds numbers of 32 bits alone.
const UNKNOWN: u32 = 65535;

// ---- what a cell holds

// Where the field begins.
pub fn offset_in(cell: u32) -> u32
    ensures { result ≡ offset_in cell }
{
    cell / 65536
}

// The type.
pub fn type_in(cell: u32) -> u16
    ensures { result ≡ type_in cell }
{
    (cell / 256 % 256) as u16
}

// The record that the field is in; 255 where there is none.
pub fn record_in(cell: u32) -> u16
    ensures { result ≡ record_in cell }
{
    (cell % 256) as u16
}

// ---- the cell of a node

// A field of record d.
fn field_cell(d: u16, found: Option<FieldAt>) -> u32
    ensures { result ≡ field_cell d found }
{
    let Some(FieldAt { offset, declared }) = found else {
        return UNKNOWN;
    };
    if 65535 < offset || 254 < declared || 254 < d {
        return UNKNOWN;
    }
    offset * 65536 + declared as u32 * 256 + d as u32
}

// Any other designator, of type r.
fn typed_cell(r: u16) -> u32
    ensures { result ≡ typed_cell r }
{
    if 254 < r {
        return UNKNOWN;
    }
    r as u32 * 256 + 255
}

// The type of node a, which the plan holds where the node is below row r.
fn type_below(plan: &[u32], r: usize, a: u16) -> u16
    ensures { result ≡ type_in (below UNKNOWN r (λ k. get_or plan.now (NODES + k) 0) a) }
{
    let child = a as usize;
    if r <= child {
        return type_in(UNKNOWN);
    }
    type_in(sizes::cell(plan, NODES + child))
}

// Node row r, from the cells of lower rows.
fn node_cell(t: &[u8], f: &[u8], v: &[u8], plan: &[u32], r: usize, row: Row) -> u32
    requires { TypesAccepted t.now f.now × Plan t.now f.now (rows_of t.now) plan.now }
    ensures { result ≡ cell_by t.now f.now v.now
        (below UNKNOWN r (λ k. get_or plan.now (NODES + k) 0)) row.kind row }
{
    match row.kind {
        1 => {
            let variable = image::row_at(v, row.a as usize);
            typed_cell(variable.a)
        }
        2 => {
            let d = type_below(plan, r, row.a);
            field_cell(d, relations::field(t, f, plan, d, row.b))
        }
        3 => {
            let whole = type_below(plan, r, row.a);
            let array = image::row_at(t, whole as usize);
            typed_cell(array.a)
        }
        4 => typed_cell(row.b),
        _ => UNKNOWN,
    }
}

// Writes the cell of each node row.
pub fn fill(t: &[u8], f: &[u8], v: &[u8], n: &[u8], plan: &mut [u32])
    requires { TypesAccepted t.now f.now × Plan t.now f.now (rows_of t.now) plan.old
        × (rows_of t.now ≤ 64) × (rows_of f.now ≤ 256) × (rows_of n.now ≤ 2048) × (RUN_PLAN ≤ length plan.old) }
    ensures { Filled NODES (rows_of n.now)
        (cell_of t.now f.now v.now n.now)
        plan.old plan.new }
{
    for r in 0..image::rows_of(n) {
        let row = image::row_at(n, r);
        plan[NODES + r] = node_cell(t, f, v, plan, r, row);
    }
}
