// Statements: question 8.
#![tactic(auto)]

ghost use Rattle.std.specs.Prelude.{◌≡◌, List, ℕ, ◌+◌, ◌≤◌, ◌<◌, length, get_or};
ghost use Rattle.prelude.specs.Choice.{choose};
ghost use Rattle.image.specs.Rows.{rows_of};
ghost use Rattle.nodes.specs.Nodes.{is_argument};
ghost use Rattle.statements.specs.Runs.{Runs, RunsIn};
ghost use Rattle.statements.specs.Statements.{begins_at, next_procedure, is_node, target_kept, arguments_kept};
ghost use Rattle.statements.specs.Statements.{assign_kept, call_kept, jump_kept, goto_kept, return_kept, read_kept};
ghost use Rattle.statements.specs.Statements.{value_kept, form_kept, last_kept, statement_in, question8};

use image::Row;

// Whether a body begins behind procedure q's at statement row r.
fn begins_at(p: &[u8], q: usize, r: usize) -> bool
    requires { q < 65536 }
    ensures { result ≡ begins_at p.now q r }
{
    let next = q + 1;
    next < image::rows_of(p) && image::row_at(p, next).a as usize == r
}

// The procedure whose body has statement row r, where that of the row before is q.
#[tactic(auto, unfolding(crate::specs::Statements::next_procedure, prelude::specs::Choice::choose))]
pub fn next_procedure(p: &[u8], q: usize, r: usize) -> usize
    requires { q < 65536 }
    ensures { result ≡ next_procedure p.now q r }
{
    if begins_at(p, q, r) { q + 1 } else { q }
}

// Whether node row k is there and no argument.
pub fn is_node(n: &[u8], k: u16) -> bool
    ensures { result ≡ is_node n.now k }
{
    let node = k as usize;
    node < image::rows_of(n) && !nodes::is_argument(n, node)
}

fn target_kept(start: usize, end: usize, b: u16) -> bool
    ensures { result ≡ target_kept start end b }
{
    let target = b as usize;
    start <= target && target < end
}

// The run of arguments from node row i on, where that of the next row is `run`.
#[tactic(auto, unfolding(prelude::specs::Choice::choose))]
fn next_run(n: &[u8], i: usize, run: u16) -> u16
    requires { run < 65535 }
    ensures { result ≡ choose (is_argument n.now i) (run + 1) 0 }
{
    if nodes::is_argument(n, i) { run + 1 } else { 0 }
}

// Writes how many arguments stand in a row from each node row on, from the last row down.
fn fill_runs(n: &[u8], runs: &mut [u16])
    requires { (rows_of n.now ≤ 2048) × (rows_of n.now ≤ length runs.old) }
    ensures { RunsIn n.now runs.old runs.new }
{
    let nodes = image::rows_of(n);
    let mut run: u16 = 0;
    for i in (0..nodes).rev() {
        run = next_run(n, i, run);
        runs[i] = run;
    }
}

// The run of arguments from node row b on.
fn run_at(runs: &[u16], b: u16) -> u16
    ensures { result ≡ get_or runs.now b 0 }
{
    // Not by `get`: docs/DECISIONS.md, D121.
    let row = b as usize;
    if row < runs.len() {
        return runs[row];
    }
    0
}

fn arguments_kept(runs: &[u16], b: u16, parameters: u16) -> bool
    ensures { (n : List ℕ) → Runs n runs.now → result ≡ arguments_kept n b parameters }
{
    if parameters == 0 {
        b == 0
    } else {
        parameters <= run_at(runs, b)
    }
}

// A line for each kind below: forms that differ in what a and b are share no more than `row.c == 0`.
fn assign_kept(n: &[u8], row: Row) -> bool
    ensures { result ≡ assign_kept n.now row }
{
    nodes::is_designator(n, row.a as usize) && is_node(n, row.b) && row.c == 0
}

fn call_kept(runs: &[u16], p: &[u8], row: Row) -> bool
    ensures { (n : List ℕ) → Runs n runs.now → result ≡ call_kept n p.now row }
{
    let a = row.a as usize;
    1 <= a
        && a < image::rows_of(p)
        && arguments_kept(runs, row.b, image::row_at(p, a).b)
        && row.c == 0
}

fn jump_kept(n: &[u8], start: usize, end: usize, row: Row) -> bool
    ensures { result ≡ jump_kept n.now start end row }
{
    is_node(n, row.a) && target_kept(start, end, row.b) && row.c == 0
}

fn goto_kept(start: usize, end: usize, row: Row) -> bool
    ensures { result ≡ goto_kept start end row }
{
    row.a == 0 && target_kept(start, end, row.b) && row.c == 0
}

fn return_kept(row: Row) -> bool
    ensures { result ≡ return_kept row }
{
    row.a == 0 && row.b == 0 && row.c == 0
}

fn read_kept(n: &[u8], row: Row) -> bool
    ensures { result ≡ read_kept n.now row }
{
    nodes::is_designator(n, row.a as usize) && row.b == 0 && row.c == 0
}

fn value_kept(n: &[u8], row: Row) -> bool
    ensures { result ≡ value_kept n.now row }
{
    is_node(n, row.a) && row.b == 0 && row.c == 0
}

#[tactic(auto, unfolding(crate::specs::Statements::form_kept, prelude::specs::Choice::choose))]
fn statement_form(n: &[u8], runs: &[u16], p: &[u8], start: usize, end: usize, row: Row) -> bool
    requires { Runs n.now runs.now }
    ensures { result ≡ form_kept n.now p.now start end row.kind row }
{
    match row.kind {
        0 => assign_kept(n, row),
        1 => call_kept(runs, p, row),
        2 => jump_kept(n, start, end, row),
        3 => goto_kept(start, end, row),
        4 => return_kept(row),
        5 => read_kept(n, row),
        6 => value_kept(n, row),
        7 => value_kept(n, row),
        _ => false,
    }
}

#[tactic(auto, unfolding(crate::specs::Statements::last_kept, prelude::specs::Choice::choose))]
fn last_kept(end: usize, r: usize, row: Row) -> bool
    requires { r < 65536 }
    ensures { result ≡ last_kept end r row }
{
    r + 1 != end || matches!(row.kind, 3 | 4 | 7)
}

// Whether statement row r in the body of procedure q keeps its form.
fn statement_in(
    n: &[u8],
    runs: &[u16],
    p: &[u8],
    statements: usize,
    q: usize,
    r: usize,
    row: Row,
) -> bool
    requires { (q < 65536) × (r < 65536) × Runs n.now runs.now }
    ensures { result ≡ statement_in n.now p.now statements q r row }
{
    let start = image::row_at(p, q).a as usize;
    let end = frames::body_end(p, statements, q);
    row.zero == 0 && statement_form(n, runs, p, start, end, row) && last_kept(end, r, row)
}

// The lowest statement row at fault, by the runs of arguments.
fn scan_statements(n: &[u8], runs: &[u16], p: &[u8], s: &[u8]) -> Result<(), u16>
    requires { (rows_of s.now ≤ 1024) × Runs n.now runs.now }
    ensures { result ≡ question8 n.now p.now s.now }
{
    let statements = image::rows_of(s);
    let mut q: usize = 0;
    for r in 0..statements {
        let row = image::row_at(s, r);
        if !statement_in(n, runs, p, statements, q, r, row) {
            return Err(r as u16);
        }
        q = next_procedure(p, q, r + 1);
    }
    Ok(())
}

// Question 8. The runs of arguments go into a lent table, one number a node.
pub fn check_statements(n: &[u8], p: &[u8], s: &[u8], runs: &mut [u16]) -> Result<(), u16>
    requires { (rows_of n.now ≤ 2048) × (rows_of s.now ≤ 1024) × (rows_of n.now ≤ length runs.old) }
    ensures value { result ≡ question8 n.now p.now s.now }
    ensures runs { RunsIn n.now runs.old runs.new }
{
    let nodes = image::rows_of(n);
    fill_runs(n, runs);
    scan_statements(n, &runs[..nodes], p, s)
}
