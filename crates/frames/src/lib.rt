// Variables and procedures: questions 5 and 6.
#![tactic(auto)]

ghost use Rattle.std.specs.Prelude.{true, false, ◌≡◌, ℕ, ◌+◌, ◌≤◌, ◌<◌, length};
ghost use Rattle.image.specs.Faults.{all_from};
ghost use Rattle.image.specs.Rows.{rows_of};
ghost use Rattle.frames.specs.Procedures.{body_end, module_kept, body_kept, own_kept, question6};
ghost use Rattle.frames.specs.Variables.{kind_within, globals_of, form_kept, question5};

use image::Row;

// ---- question 5

// Whether a variable row keeps its form; `lower`: every lower row is a global.
fn form_kept(row: Row, types: usize, lower: bool) -> bool
    ensures { result ≡ form_kept row types lower }
{
    row.kind <= 3
        && row.zero == 0
        && (row.a as usize) < types
        && row.b == 0
        && row.c == 0
        && (row.kind != 0 || lower)
}

// Question 5.
pub fn check_variables(t: &[u8], v: &[u8]) -> Result<(), u16>
    requires { rows_of v.now ≤ 256 }
    ensures { result ≡ question5 t.now v.now }
{
    let types = image::rows_of(t);
    let n = image::rows_of(v);
    let mut lower = true;
    for r in 0..n {
        let row = image::row_at(v, r);
        if !form_kept(row, types, lower) {
            return Err(r as u16);
        }
        lower = row.kind == 0;
    }
    Ok(())
}

// How many globals there are.
pub fn globals(v: &[u8]) -> usize
    ensures { result ≡ globals_of v.now }
{
    let n = image::rows_of(v);
    for k in 0..n {
        let row = image::row_at(v, k);
        if row.kind != 0 {
            return k;
        }
    }
    n
}

// ---- question 6

// Where the body of procedure r ends.
#[tactic(auto, unfolding(crate::specs::Procedures::body_end, prelude::specs::Choice::choose))]
pub fn body_end(p: &[u8], statements: usize, r: usize) -> usize
    requires { r < 65536 }
    ensures { result ≡ body_end p.now statements r }
{
    let next = r + 1;
    if next < image::rows_of(p) {
        image::row_at(p, next).a as usize
    } else {
        statements
    }
}

fn module_kept(r: usize, row: Row) -> bool
    ensures { result ≡ module_kept r row }
{
    r != 0 || row.a == 0 && row.b == 0
}

fn body_kept(p: &[u8], statements: usize, r: usize, row: Row) -> bool
    requires { r < 65536 }
    ensures { result ≡ body_kept p.now statements r row }
{
    let a = row.a as usize;
    row.kind == 0
        && row.zero == 0
        && module_kept(r, row)
        && a < statements
        && a < body_end(p, statements, r)
}

// Whether n variables from row k on have kinds from low to high.
fn kinds_within(v: &[u8], low: u8, high: u8, k: usize, n: u16) -> bool
    requires { k < 1048576 }
    ensures { result ≡ all_from (kind_within v.now low high) k n }
{
    for i in k..k + n as usize {
        let row = image::row_at(v, i);
        if row.kind < low || high < row.kind {
            return false;
        }
    }
    true
}

fn own_kept(v: &[u8], first: usize, row: Row) -> bool
    requires { first ≤ 256 }
    ensures { result ≡ own_kept v.now first row }
{
    let locals = first + row.b as usize;
    locals + row.c as usize <= image::rows_of(v)
        && kinds_within(v, 2, 3, first, row.b)
        && kinds_within(v, 1, 1, locals, row.c)
}

// Question 6.
pub fn check_procedures(v: &[u8], p: &[u8], s: &[u8]) -> Result<(), u16>
    requires { (rows_of v.now ≤ 256) × (rows_of p.now ≤ 64) }
    ensures { result ≡ question6 v.now p.now s.now }
{
    let statements = image::rows_of(s);
    let n = image::rows_of(p);
    let mut first = globals(v);
    for r in 0..n {
        let row = image::row_at(p, r);
        if !body_kept(p, statements, r, row) || !own_kept(v, first, row) {
            return Err(r as u16);
        }
        first += row.b as usize + row.c as usize;
    }
    if first == image::rows_of(v) {
        Ok(())
    } else {
        Err(n as u16)
    }
}
