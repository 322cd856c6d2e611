// Nodes: question 7.
#![tactic(auto)]

ghost use Rattle.std.specs.Prelude.{◌≡◌, ℕ, ◌≤◌};
ghost use Rattle.image.specs.Rows.{rows_of};
ghost use Rattle.nodes.specs.Nodes.{is_designator, is_argument, child_kept, designator_kept, constant_kept};
ghost use Rattle.nodes.specs.Nodes.{variable_kept, field_kept, element_kept, guard_kept, dyadic_kept, monadic_kept};
ghost use Rattle.nodes.specs.Nodes.{argument_kept, form_kept, question7};

use image::Row;

// Whether node row k is a designator.
pub fn is_designator(n: &[u8], k: usize) -> bool
    ensures { result ≡ is_designator n.now k }
{
    let kind = image::row_at(n, k).kind;
    1 <= kind && kind <= 4
}

// Whether node row k is an argument.
pub fn is_argument(n: &[u8], k: usize) -> bool
    ensures { result ≡ is_argument n.now k }
{
    image::row_at(n, k).kind == 8
}

// A child, or a designator, in a lower row: two lines, which one function with the test handed to it would not shorten.
fn child_kept(n: &[u8], r: usize, k: u16) -> bool
    ensures { result ≡ child_kept n.now r k }
{
    let child = k as usize;
    child < r && !is_argument(n, child)
}

fn designator_kept(n: &[u8], r: usize, k: u16) -> bool
    ensures { result ≡ designator_kept n.now r k }
{
    let child = k as usize;
    child < r && is_designator(n, child)
}

fn constant_kept(version: u8, row: Row) -> bool
    ensures { result ≡ constant_kept version row }
{
    row.a < image::scalar_rows(version) && (row.a != 0 || row.b == 0 && row.c <= 1)
}

fn variable_kept(variables: usize, row: Row) -> bool
    ensures { result ≡ variable_kept variables row }
{
    (row.a as usize) < variables && row.b == 0 && row.c == 0
}

fn field_kept(n: &[u8], r: usize, row: Row) -> bool
    ensures { result ≡ field_kept n.now r row }
{
    designator_kept(n, r, row.a) && row.c == 0
}

fn element_kept(n: &[u8], r: usize, row: Row) -> bool
    ensures { result ≡ element_kept n.now r row }
{
    designator_kept(n, r, row.a) && child_kept(n, r, row.b) && row.c == 0
}

fn guard_kept(types: usize, variables: usize, row: Row) -> bool
    ensures { result ≡ guard_kept types variables row }
{
    (row.a as usize) < variables && (row.b as usize) < types && row.c == 0
}

fn dyadic_kept(n: &[u8], r: usize, row: Row) -> bool
    ensures { result ≡ dyadic_kept n.now r row }
{
    child_kept(n, r, row.a) && child_kept(n, r, row.b) && 1 <= row.c && row.c <= 16
}

// Like `argument_kept` but for the operator: two lines, as above.
fn monadic_kept(version: u8, n: &[u8], r: usize, row: Row) -> bool
    ensures { result ≡ monadic_kept version n.now r row }
{
    child_kept(n, r, row.a) && row.b == 0 && 1 <= row.c && row.c <= image::monadics(version)
}

fn argument_kept(n: &[u8], r: usize, row: Row) -> bool
    ensures { result ≡ argument_kept n.now r row }
{
    child_kept(n, r, row.a) && row.b == 0 && row.c == 0
}

#[tactic(auto, unfolding(crate::specs::Nodes::form_kept, prelude::specs::Choice::choose))]
fn node_form(version: u8, types: usize, variables: usize, n: &[u8], r: usize, row: Row) -> bool
    ensures { result ≡ form_kept version types variables n.now r row.kind row }
{
    match row.kind {
        0 => constant_kept(version, row),
        1 => variable_kept(variables, row),
        2 => field_kept(n, r, row),
        3 => element_kept(n, r, row),
        4 => guard_kept(types, variables, row),
        5 => dyadic_kept(n, r, row),
        6 => monadic_kept(version, n, r, row),
        7 => guard_kept(types, variables, row),
        8 => argument_kept(n, r, row),
        _ => false,
    }
}

// Question 7 of an image of a version.
pub fn check_nodes(version: u8, t: &[u8], v: &[u8], n: &[u8]) -> Result<(), u16>
    requires { rows_of n.now ≤ 2048 }
    ensures { result ≡ question7 version t.now v.now n.now }
{
    let types = image::rows_of(t);
    let variables = image::rows_of(v);
    let nodes = image::rows_of(n);
    for r in 0..nodes {
        let row = image::row_at(n, r);
        if row.zero != 0 || !node_form(version, types, variables, n, r, row) {
            return Err(r as u16);
        }
    }
    Ok(())
}
