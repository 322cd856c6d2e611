// Cells of the plan, and the size of a type from the sizes of lower rows that the plan holds.
#![tactic(auto)]

ghost use Rattle.std.specs.Prelude.{map, ◌≡◌, ◌+◌, ◌*◌, ◌≤◌, ◌<◌, get_or};
ghost use Rattle.prelude.specs.Parts.{sum};
ghost use Rattle.shapes.specs.Forms.{form_of, of_base, own_types};
ghost use Rattle.shapes.specs.Sizes.{size_by};

use image::Row;

// The plan is a lent table of numbers that the check fills, so that no step adds them up: docs/PLAN.md. Its cells:
//
// cell  name        what it holds                                                                           filled by
//    0              + r: the size of type row r                                                             types
//   64  INHERITED   + r: how many fields the record in type row r has from its base                         types
//  128  OFFSETS     + k: where field row k begins in its record                                             types
//  384  PLACES      + k: where variable row k begins: a global in the store, another in its frame           places
//  640  FRAMES      + q: the size of procedure q's frame                                                    places
//  704  FIRSTS      + q: procedure q's first variable row; the row behind the last one's variables follows  places
//  769  GLOBALS     how many cells the globals have                                                         places
//  770  BOUNDS      + 2 * k, + 2 * k + 1: where table k of the six starts and ends in the image             checker
//  782  OWNERS      + r: the procedure whose body has statement row r                                       access
// 1806  NODES       + r: of node row r the field's offset, the type, and the record that the field is in    access
// 3854  LOWER       + r: bit u: type row r extends row u                                                    access
// 3918  UPPER       + r: bit u: type row r extends row 32 + u                                               access
//
//  782  CHECK_PLAN  how many cells the check needs
// 3982  RUN_PLAN    how many cells a run needs
pub const INHERITED: usize = 64;

pub const OFFSETS: usize = INHERITED + 64;

pub const PLACES: usize = OFFSETS + 256;

pub const FRAMES: usize = PLACES + 256;

pub const FIRSTS: usize = FRAMES + 64;

pub const GLOBALS: usize = FIRSTS + 65;

pub const BOUNDS: usize = GLOBALS + 1;

pub const OWNERS: usize = BOUNDS + 12;

pub const CHECK_PLAN: usize = OWNERS;

pub const NODES: usize = OWNERS + 1024;

pub const LOWER: usize = NODES + 2048;

pub const UPPER: usize = LOWER + 64;

pub const RUN_PLAN: usize = UPPER + 64;

// A cell of the plan, 0 past its end. (Not by `get`, since an edit moves the test: must-fail/plan_past_end.)
pub fn cell(plan: &[u32], i: usize) -> u32
    ensures { result ≡ get_or plan.now i 0 }
{
    if i < plan.len() {
        return plan[i];
    }
    0
}

// The size of a record's base.
pub fn base_size(plan: &[u32], a: u16) -> u32
    ensures { result ≡ of_base 0 (λ r. get_or plan.now r 0) a }
{
    let Some(base) = (a as usize).checked_sub(1) else {
        return 0;
    };
    cell(plan, base)
}

// The sizes of n field rows from row k on, added up.
fn own_size(f: &[u8], plan: &[u32], k: usize, n: u16) -> usize
    requires { k < 65536 }
    ensures value { result ≡ sum (map (λ r. get_or plan.now r 0) (own_types f.now k n)) }
    ensures small { result ≤ n * 4294967295 }
{
    let mut total: usize = 0;
    for i in k..k + n as usize {
        total += cell(plan, image::row_at(f, i).a as usize) as usize;
    }
    total
}

// An array's size.
fn array_size(n: u16, element: u32) -> usize
    ensures { result ≡ n * element }
{
    n as usize * element as usize
}

// The size of a row's type.
pub fn type_size(f: &[u8], plan: &[u32], row: Row) -> usize
    ensures { result ≡ size_by f.now (λ r. get_or plan.now r 0) (form_of row) }
{
    match row.kind {
        0..=2 => 1,
        3 => array_size(row.b, cell(plan, row.a as usize)),
        4 => base_size(plan, row.a) as usize + own_size(f, plan, row.b as usize, row.c),
        _ => 0,
    }
}
