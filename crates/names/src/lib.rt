// Names: question 9, with a byte for each node.
#![tactic(auto)]

ghost use Rattle.std.specs.Prelude.{[], ◌∷◌, ◌≡◌, ℕ, ◌≤◌, length, get_or};
ghost use Rattle.prelude.specs.Choice.{choose};
ghost use Rattle.image.specs.Faults.{lowest_fault};
ghost use Rattle.image.specs.Rows.{row_at, rows_of};
ghost use Rattle.names.specs.Names.{names_of_node, names_of_statement, rows_from, names_from, names_in, question9};
ghost use Rattle.names.specs.declared.Often.TheVariants.{Never};
ghost use Rattle.names.specs.Often.{is_once, Says, more as more_of, Named};
ghost use Rattle.names.specs.Often.{node_names_a, node_names_b, statement_names_a};

use image::Row;

// ---- how often a node is named

// In a byte of the table.
#[derive(Clone, Copy, PartialEq, Eq)]
#[repr(u8)]
enum Often {
    Never = 0,
    Once = 1,
    More = 2,
}

const _: () = prove!(Often::Never as u8 == 0 && Often::Once as u8 == 1 && Often::More as u8 == 2);

// After one name more.
#[tactic(auto, unfolding(crate::specs::Often::more))]
fn more(often: Often) -> Often
    ensures { result ≡ more_of often }
{
    match often {
        Often::Never => Often::Once,
        Often::Once | Often::More => Often::More,
    }
}

// ---- names: each is counted in the byte of its row, where the table has that row

// The number k, where it is a name.
fn name(often: &mut [Often], named: bool, k: u16)
    ensures { Named (choose named (k ∷ []) []) often.old often.new }
{
    let row = k as usize;
    if named && row < often.len() {
        often[row] = more(often[row]);
    }
}

// So many rows from `from` on. The loop stores each byte, without a test, so that the compiler takes many at a time.
fn name_rows(often: &mut [Often], from: u16, rows: u16)
    ensures { Named (rows_from from rows) often.old often.new }
{
    let length = often.len();
    let first = from as usize;
    let end = length.min(first + rows as usize);
    for node in &mut often[length.min(first)..end] {
        *node = more(*node);
    }
}

// Whether a, or b, is a name in a node of that kind. They are asked apart: one match for both is a jump to many places,
// which the processor foresees less often.
#[tactic(auto, unfolding(crate::specs::Often::node_names_a))]
fn node_names_a(kind: u8) -> bool
    ensures { result ≡ node_names_a kind }
{
    matches!(kind, 2 | 3 | 5 | 6 | 8)
}

#[tactic(auto, unfolding(crate::specs::Often::node_names_b))]
fn node_names_b(kind: u8) -> bool
    ensures { result ≡ node_names_b kind }
{
    matches!(kind, 3 | 5)
}

// What a node names.
fn name_node(often: &mut [Often], row: Row)
    ensures { Named (names_of_node row) often.old often.new }
{
    name(often, node_names_a(row.kind), row.a);
    name(often, node_names_b(row.kind), row.b);
}

#[tactic(auto, unfolding(crate::specs::Often::statement_names_a))]
fn statement_names_a(kind: u8) -> bool
    ensures { result ≡ statement_names_a kind }
{
    matches!(kind, 0 | 2 | 5 | 6 | 7)
}

// The arguments of a call.
fn name_arguments(p: &[u8], often: &mut [Often], row: Row)
    ensures { Named (rows_from row.b (row_at p.now row.a).b) often.old
        often.new }
{
    name_rows(often, row.b, image::row_at(p, row.a as usize).b);
}

// What a statement names.
fn name_statement(p: &[u8], often: &mut [Often], row: Row)
    ensures { Named (names_of_statement p.now row) often.old often.new }
{
    name(often, statement_names_a(row.kind), row.a);
    name(often, row.kind == 0, row.b);
    if row.kind == 1 {
        name_arguments(p, often, row);
    }
}

fn name_nodes(n: &[u8], often: &mut [Often])
    ensures { Named (names_from (λ i. names_of_node (row_at n.now i)) 0 (rows_of n.now))
        often.old often.new }
{
    for i in 0..image::rows_of(n) {
        name_node(often, image::row_at(n, i));
    }
}

fn name_statements(p: &[u8], s: &[u8], often: &mut [Often])
    ensures { Named (names_from (λ i. names_of_statement p.now (row_at s.now i)) 0
        (rows_of s.now)) often.old often.new }
{
    for i in 0..image::rows_of(s) {
        name_statement(p, often, image::row_at(s, i));
    }
}

// ---- the question

// How often each node is named, into a table that says never of every row.
fn count_names(n: &[u8], p: &[u8], s: &[u8], often: &mut [Often])
    requires { (k : ℕ) → get_or often.old k Never ≡ Never }
    ensures { Says (names_in n.now p.now s.now) often.new }
{
    name_nodes(n, often);
    name_statements(p, s, often);
}

// Whether each of the rows is named once.
fn each_once(often: &[Often], rows: usize) -> Result<(), u16>
    requires { (rows ≤ 2048) × (rows ≤ length often.now) }
    ensures { result ≡ lowest_fault (λ k. is_once (get_or often.now k Never)) rows }
{
    for k in 0..rows {
        if often[k] != Often::Once {
            return Err(k as u16);
        }
    }
    Ok(())
}

// Question 9.
pub fn check_names(n: &[u8], p: &[u8], s: &[u8]) -> Result<(), u16>
    requires { rows_of n.now ≤ 2048 }
    ensures { result ≡ question9 n.now p.now s.now }
{
    let nodes = image::rows_of(n);
    let mut often = [Often::Never; 2048];
    count_names(n, p, s, &mut often);
    each_once(&often, nodes)
}
