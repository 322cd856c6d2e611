// An accepted image as the machine reads it: its rows, and by its plan its sizes and places, of which none is added up
// again.
#![tactic(auto)]

ghost use Rattle.std.specs.Prelude.{◌≡◌, ◌≤◌, ◌<◌, length};
ghost use Rattle.prelude.specs.Cells.{Filled};
ghost use Rattle.image.specs.Rows.{row_at, rows_of};
ghost use Rattle.shapes.specs.Forms.{is_single};
ghost use Rattle.shapes.specs.Sizes.{size_of};
ghost use Rattle.sizes.specs.Cells.{OWNERS, NODES, RUN_PLAN};
ghost use Rattle.types.specs.Plan.{Plan as TypesPlan};
ghost use Rattle.relations.specs.Extends.{extends as extends_of};
ghost use Rattle.relations.specs.Fields.{field_of};
ghost use Rattle.frames.specs.Procedures.{first_variable, claimed_by};
ghost use Rattle.statements.specs.Statements.{procedure_at};
ghost use Rattle.places.specs.Places.{width_of, frame_size};
ghost use Rattle.checker.specs.Check.{check_of};
ghost use Rattle.semantics.specs.Layout.{place_of};
ghost use Rattle.semantics.specs.Running.{program_of, global_room};
ghost use Rattle.access.specs.Ready.{table_of, node_cell, Checked, Planned, Ready, Opened};

use checker::Refusal;
use image::Row;
use relations::FieldAt;
use sizes::{BOUNDS, FIRSTS, FRAMES, GLOBALS, LOWER, NODES, OWNERS, PLACES, RUN_PLAN, UPPER};

// The version that there is.
const VERSION: u8 = 1;

// The plan of a run, lent by a reference that is one number: docs/PLAN.md.
pub type Plan = [u32; RUN_PLAN];

// An accepted image and its plan, as a run reads them.
#[derive(Clone, Copy)]
pub struct Loaded<'a> {
    pub image: &'a [u8],
    pub plan: &'a Plan,
    pub ghost planned: { Planned image.now plan.now },
}

// ---- tables and rows

// Table k of the six, in their order.
pub fn table<'a>(image: &'a [u8], plan: &[u32], k: usize) -> &'a [u8]
    requires { Checked image.now plan.now × (k < 6) }
    ensures { result.now ≡ table_of (program_of image.now) k }
{
    let at = BOUNDS + 2 * k;
    let start = plan[at] as usize;
    let end = plan[at + 1] as usize;
    &image[start..end]
}

impl<'a> Loaded<'a> {
    // Table k of the accepted image.
    pub fn table(&self, k: usize) -> &'a [u8]
        requires { k < 6 }
        ensures { result.now ≡ table_of (program_of self.now.image.now) k }
    {
        let plan = self.plan;
        table(self.image, plan, k)
    }

    pub fn type_at(&self, r: u16) -> Row
        ensures { result ≡ row_at (program_of self.now.image.now).types r }
    {
        image::row_at(self.table(0), r as usize)
    }

    pub fn variable_at(&self, a: u32) -> Row
        ensures { result ≡ row_at (program_of self.now.image.now).variables a }
    {
        image::row_at(self.table(2), a as usize)
    }

    pub fn procedure_at(&self, q: u16) -> Row
        ensures { result ≡ row_at (program_of self.now.image.now).procedures q }
    {
        image::row_at(self.table(3), q as usize)
    }

    pub fn node_at(&self, r: u32) -> Row
        ensures { result ≡ row_at (program_of self.now.image.now).nodes r }
    {
        image::row_at(self.table(4), r as usize)
    }

    pub fn statement_at(&self, r: u32) -> Row
        ensures { result ≡ row_at (program_of self.now.image.now).statements r }
    {
        image::row_at(self.table(5), r as usize)
    }

    // ---- types

    // Whether type row r extends row u: a bit of row r's. Past the last row there can be, each row extends itself
    // alone.
    pub fn extends(&self, r: u16, u: u16) -> bool
        ensures { result ≡ extends_of (program_of self.now.image.now).types r u }
    {
        if 63 < r {
            return r == u;
        }
        if u < 32 {
            return ancestors::holds(self.plan[LOWER + r as usize], u);
        }
        if u < 64 {
            return ancestors::holds(self.plan[UPPER + r as usize], u - 32);
        }
        false
    }

    // The field that node row k names, of an object of type row r: by the node's cell if that is of the same record,
    // else up the bases.
    pub fn field(&self, k: u32, r: u16) -> Option<FieldAt>
        requires { ((row_at (program_of self.now.image.now).nodes k).kind ≡ 2)
            × (r < rows_of (program_of self.now.image.now).types) }
        ensures { result ≡ field_of (program_of self.now.image.now).types
            (program_of self.now.image.now).fields r
            (row_at (program_of self.now.image.now).nodes k).b }
    {
        let plan = self.plan;
        let cell = plan[NODES + k as usize];
        if designators::record_in(cell) == r {
            return Some(FieldAt {
                offset: designators::offset_in(cell),
                declared: designators::type_in(cell),
            });
        }
        relations::field(self.table(0), self.table(1), plan, r, self.node_at(k).b)
    }

    // The size of type row r.
    pub fn size_of(&self, r: u16) -> u32
        requires { r < rows_of (program_of self.now.image.now).types }
        ensures { result ≡ size_of (program_of self.now.image.now).types
            (program_of self.now.image.now).fields r }
    {
        self.plan[r as usize]
    }

    // Whether objects of type row r are single cells: the scalars stand first, each in the row of its kind.
    pub fn is_single(&self, r: u16) -> bool
        requires { r < rows_of (program_of self.now.image.now).types }
        ensures { result ≡ is_single (program_of self.now.image.now).types r }
    {
        r < image::scalar_rows(VERSION)
    }

    // ---- variables and procedures

    // Where variable row a begins: a global in the store, another in its frame.
    pub fn place_of(&self, a: u32) -> u32
        requires { a < rows_of (program_of self.now.image.now).variables }
        ensures { result ≡ place_of (program_of self.now.image.now) a }
    {
        self.plan[PLACES + a as usize]
    }

    // How many cells variable row a has.
    pub fn width_of(&self, a: u32) -> u32
        requires { a < rows_of (program_of self.now.image.now).variables }
        ensures { result ≡ width_of (program_of self.now.image.now).types
            (program_of self.now.image.now).fields (program_of self.now.image.now).variables a }
    {
        let row = self.variable_at(a);
        if row.kind == 3 {
            return 2;
        }
        self.size_of(row.a)
    }

    // The size of procedure q's frame.
    pub fn frame_size(&self, q: u16) -> u32
        requires { q < rows_of (program_of self.now.image.now).procedures }
        ensures { result ≡ frame_size (program_of self.now.image.now).types
            (program_of self.now.image.now).fields (program_of self.now.image.now).variables
            (program_of self.now.image.now).procedures q }
    {
        self.plan[FRAMES + q as usize]
    }

    // The first variable row of procedure q.
    pub fn first_variable(&self, q: u16) -> u32
        requires { q < rows_of (program_of self.now.image.now).procedures }
        ensures { result ≡ first_variable (program_of self.now.image.now).variables
            (program_of self.now.image.now).procedures q }
    {
        self.plan[FIRSTS + q as usize]
    }

    // How many variables procedure q has.
    pub fn claimed_by(&self, q: u16) -> u32
        ensures { result ≡ claimed_by (row_at (program_of self.now.image.now).procedures q) }
    {
        let row = self.procedure_at(q);
        row.b as u32 + row.c as u32
    }

    // How many cells the globals have.
    pub fn global_room(&self) -> u32
        ensures { result ≡ global_room (program_of self.now.image.now) }
    {
        self.plan[GLOBALS]
    }

    // The procedure whose body has statement row r.
    pub fn procedure_of(&self, r: u32) -> u32
        requires { (r < rows_of (program_of self.now.image.now).statements)
            × Ready self.now.image.now self.now.plan.now }
        ensures { result ≡ procedure_at (program_of self.now.image.now).procedures r }
    {
        self.plan[OWNERS + r as usize]
    }
}

// ---- the plan

// Writes the procedure of each of n statement rows.
fn fill_owners(p: &[u8], n: usize, plan: &mut [u32])
    requires { (n ≤ 1024) × (rows_of p.now ≤ 64) × (RUN_PLAN ≤ length plan.old) }
    ensures { Filled OWNERS n (procedure_at p.now) plan.old plan.new }
{
    let mut q: usize = 0;
    for r in 0..n {
        plan[OWNERS + r] = q as u32;
        q = statements::next_procedure(p, q, r + 1);
    }
}

// Writes what each node row designates.
fn fill_nodes(image: &[u8], plan: &mut [u32])
    requires { Checked image.now plan.old × TypesPlan (program_of image.now).types
        (program_of image.now).fields (rows_of (program_of image.now).types) plan.old }
    ensures { Filled NODES (rows_of (program_of image.now).nodes)
        (node_cell (program_of image.now)) plan.old plan.new }
{
    let t = table(image, plan, 0);
    let f = table(image, plan, 1);
    let v = table(image, plan, 2);
    let n = table(image, plan, 4);
    designators::fill(t, f, v, n, plan);
}

// The check, which leaves a whole plan of an image that it accepts.
pub fn open_image(image: &[u8], plan: &mut [u32]) -> Result<(), Refusal>
    requires { RUN_PLAN ≤ length plan.old }
    ensures value { result ≡ check_of image.now }
    ensures plan { Opened image.now plan.old result plan.new }
{
    let answer = checker::prepare(image, plan);
    let Ok(()) = answer else {
        return answer;
    };
    let p = table(image, plan, 3);
    let n = image::rows_of(table(image, plan, 5));
    let t = table(image, plan, 0);
    fill_owners(p, n, plan);
    fill_nodes(image, plan);
    ancestors::fill(t, plan, LOWER, 0);
    ancestors::fill(t, plan, UPPER, 32);
    Ok(())
}
