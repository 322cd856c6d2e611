// The rows of the types table, with their own fields: the rule of each.
#![tactic(auto)]

ghost use Rattle.std.specs.Prelude.{◌≡◌, ◌+◌, ◌≤◌, ◌<◌};
ghost use Rattle.image.specs.Faults.{all_from};
ghost use Rattle.image.specs.Rows.{rows_of};
ghost use Rattle.shapes.specs.Forms.{form_of, base_of, count_of, kind_by, kind_in};
ghost use Rattle.shapes.specs.Shapes.{scalar_kept, array_kept, field_kept, base_kept, record_kept, later_kept};
ghost use Rattle.shapes.specs.Shapes.{shape_kept};

use image::Row;

fn scalar_kept(r: usize, row: Row) -> bool
    ensures { result ≡ scalar_kept r row }
{
    row.kind as usize == r && row.a == 0 && row.b == 0 && row.c == 0
}

fn array_kept(r: usize, row: Row) -> bool
    ensures { result ≡ array_kept r row }
{
    (row.a as usize) < r && (1..=4096).contains(&row.b) && row.c == 0
}

fn field_kept(f: &[u8], r: usize, k: usize) -> bool
    ensures { result ≡ field_kept f.now r k }
{
    let row = image::row_at(f, k);
    row.kind == 0 && row.zero == 0 && (row.a as usize) < r && row.b == 0 && row.c == 0
}

// Whether n field rows from row k on keep the rule of a record's own fields.
fn own_kept(f: &[u8], r: usize, k: usize, n: u16) -> bool
    requires { k + n ≤ 65536 }
    ensures { result ≡ all_from (field_kept f.now r) k n }
{
    (k..k + n as usize).all(|i| field_kept(f, r, i))
}

fn base_kept(t: &[u8], r: usize, a: u16) -> bool
    ensures { result ≡ base_kept t.now r a }
{
    let Some(base) = (a as usize).checked_sub(1) else {
        return true;
    };
    base < r && image::row_at(t, base).kind == 4
}

fn record_kept(t: &[u8], f: &[u8], used: usize, r: usize, row: Row) -> bool
    requires { (used < 65536) × (rows_of f.now ≤ 256) }
    ensures { result ≡ record_kept t.now f.now used r row }
{
    base_kept(t, r, row.a)
        && row.b as usize == used
        && used + row.c as usize <= image::rows_of(f)
        && own_kept(f, r, used, row.c)
}

fn later_kept(t: &[u8], f: &[u8], used: usize, r: usize, row: Row) -> bool
    requires { (used < 65536) × (rows_of f.now ≤ 256) }
    ensures { result ≡ later_kept t.now f.now used r row }
{
    match row.kind {
        3 => array_kept(r, row),
        4 => record_kept(t, f, used, r, row),
        _ => false,
    }
}

// Whether a row is what a type row may be, where `used` field rows are claimed by the rows below it.
pub fn shape_kept(version: u8, t: &[u8], f: &[u8], used: usize, r: usize, row: Row) -> bool
    requires { (used < 65536) × (rows_of f.now ≤ 256) }
    ensures { result ≡ shape_kept version t.now f.now used r row }
{
    row.zero == 0
        && if r < image::scalar_rows(version) as usize {
            scalar_kept(r, row)
        } else {
            later_kept(t, f, used, r, row)
        }
}

// How many field rows a type row claims.
pub fn claimed(row: Row) -> u16
    ensures { result ≡ count_of (form_of row) }
{
    if row.kind == 4 { row.c } else { 0 }
}

// 0, or the base row plus 1, of a row that is a record.
pub fn base_of(row: Row) -> u16
    ensures { result ≡ base_of (form_of row) }
{
    if row.kind == 4 { row.a } else { 0 }
}

// The kind of a type row whose objects are single cells; 255 of any other, as the definition has it: the operators' rules
// match on numbers (crate kinds).
pub const NO_KIND: u16 = 255;

pub fn kind_of(row: Row) -> u16
    ensures { result ≡ kind_by (form_of row) }
{
    if row.kind < 3 {
        row.kind as u16
    } else {
        NO_KIND
    }
}

// That of type row r.
pub fn kind_in(t: &[u8], r: u16) -> u16
    ensures { result ≡ kind_in t.now r }
{
    kind_of(image::row_at(t, r as usize))
}
