// The check of an image: questions 1 to 11.
#![tactic(auto)]

ghost use Rattle.std.specs.Prelude.{◌≡◌, ℕ, ◌≤◌, length};
ghost use Rattle.image.specs.Rows.{rows_of};
ghost use Rattle.sizes.specs.Cells.{BOUNDS, CHECK_PLAN};
ghost use Rattle.types.specs.Question.{TypesAccepted};
ghost use Rattle.types.specs.Plan.{Plan};
ghost use Rattle.frames.specs.Variables.{question5};
ghost use Rattle.frames.specs.Procedures.{question6};
ghost use Rattle.typing.specs.Typing.{question10, type_of, passed, Typed};
ghost use Rattle.checker.specs.Check.{asked, question_in, first_no, check_of};
ghost use Rattle.prelude.specs.Cells.{Filled};
ghost use Rattle.checker.specs.Prepared.{PartsOf, CountsIn, BoundsFit, Leaves, bound_of, Prepared};

use header::Tables;
use sizes::{BOUNDS, CHECK_PLAN};

// Why an image is refused: the question that fails, by its number, and the lowest row at fault.
#[derive(Clone, Copy)]
pub struct Refusal {
    pub question: u8,
    pub row: u16,
}

// What question q alone answers.
fn answer_of(q: u8, v: Result<(), u16>) -> Result<(), Refusal>
    ensures { result ≡ asked q v (Ok tt) }
{
    match v {
        Ok(()) => Ok(()),
        Err(row) => Err(Refusal { question: q, row }),
    }
}

// The six tables of an image: types, fields, variables, procedures, nodes, statements.
#[derive(Clone, Copy)]
struct Parts<'a> {
    t: &'a [u8],
    f: &'a [u8],
    v: &'a [u8],
    p: &'a [u8],
    n: &'a [u8],
    s: &'a [u8],
}

impl<'a> Parts<'a> {
    fn of(image: &'a [u8], tables: Tables) -> Parts<'a>
        ensures { PartsOf image.now tables result }
    {
        Parts {
            t: header::part(image, tables.types),
            f: header::part(image, tables.fields),
            v: header::part(image, tables.variables),
            p: header::part(image, tables.procedures),
            n: header::part(image, tables.nodes),
            s: header::part(image, tables.statements),
        }
    }

    // Questions 10 and 11. The types that question 10 finds go into a lent table, one number a node.
    fn check_meaning(&self, plan: &[u32], types: &mut [u16]) -> Result<(), Refusal>
        requires { CountsIn self.now × TypesAccepted self.now.t.now self.now.f.now ×
            (question6 self.now.v.now self.now.p.now self.now.s.now ≡ Ok tt) ×
            Plan self.now.t.now self.now.f.now (rows_of self.now.t.now) plan.now ×
            (rows_of self.now.n.now ≤ length types.old) }
        ensures by_index { (version : ℕ) → result ≡ first_no (question_in version self.now) 10 2 }
        ensures types { Typed (type_of self.now.t.now self.now.f.now self.now.v.now self.now.n.now)
            (passed self.now.n.now (question10 self.now.t.now self.now.f.now self.now.v.now self.now.n.now))
            types.old types.new }
    {
        let typed = typing::check_typing(self.t, self.f, plan, self.v, self.n, types);
        answer_of(10, typed)?;
        let nodes = image::rows_of(self.n);
        let ruled = rules::check_rules(self.t, self.v, self.p, self.n, self.s, &types[..nodes]);
        answer_of(11, ruled)
    }

    // Questions 5 to 9 of an image of a version, and then 10 and 11.
    fn check_rows(&self, version: u8, plan: &[u32]) -> Result<(), Refusal>
        requires { CountsIn self.now × TypesAccepted self.now.t.now self.now.f.now ×
            Plan self.now.t.now self.now.f.now (rows_of self.now.t.now) plan.now }
        ensures { result ≡ first_no (question_in version self.now) 5 7 }
    {
        answer_of(5, frames::check_variables(self.t, self.v))?;
        answer_of(6, frames::check_procedures(self.v, self.p, self.s))?;
        answer_of(7, nodes::check_nodes(version, self.t, self.v, self.n))?;
        // A number for each node: question 8's runs of arguments, then the types that questions 10 and 11 need.
        let mut table = [0u16; 2048];
        let statements = statements::check_statements(self.n, self.p, self.s, &mut table);
        answer_of(8, statements)?;
        answer_of(9, names::check_names(self.n, self.p, self.s))?;
        self.check_meaning(plan, &mut table)
    }

    // Questions 4 to 11. What question 4 finds goes into the plan, and with acceptance the places and frame sizes too.
    fn check_tables(&self, version: u8, plan: &mut [u32]) -> Result<(), Refusal>
        requires { CountsIn self.now × (BOUNDS ≤ length plan.old) }
        ensures value { result ≡ first_no (question_in version self.now) 4 8 }
        ensures plan { Leaves version self.now.t.now self.now.f.now self.now.v.now self.now.p.now
            plan.old result plan.new }
    {
        answer_of(4, types::check_types(version, self.t, self.f, plan))?;
        self.check_rows(version, plan)?;
        places::fill_places(self.t, self.f, self.v, self.p, plan);
        Ok(())
    }
}

// Writes where the six tables stand: each one's start, and its end behind it.
fn fill_bounds(tables: Tables, plan: &mut [u32])
    requires { BoundsFit tables × (CHECK_PLAN ≤ length plan.old) }
    ensures { Filled BOUNDS 12 (bound_of tables) plan.old plan.new }
{
    let six = [
        tables.types,
        tables.fields,
        tables.variables,
        tables.procedures,
        tables.nodes,
        tables.statements,
    ];
    for (k, table) in six.iter().enumerate() {
        plan[BOUNDS + 2 * k] = table.start as u32;
        plan[BOUNDS + 2 * k + 1] = table.end as u32;
    }
}

// The check, which leaves sizes, offsets, places and frame sizes in a lent plan, and where the tables stand.
pub fn prepare(image: &[u8], plan: &mut [u32]) -> Result<(), Refusal>
    requires { CHECK_PLAN ≤ length plan.old }
    ensures value { result ≡ check_of image.now }
    ensures plan { Prepared image.now plan.old result plan.new }
{
    match header::header(image) {
        Err(question) => Err(Refusal { question, row: 0 }),
        Ok(tables) => {
            Parts::of(image, tables).check_tables(image[0], plan)?;
            fill_bounds(tables, plan);
            Ok(())
        }
    }
}

// The check alone.
pub fn check(image: &[u8]) -> Result<(), Refusal>
    ensures { result ≡ check_of image.now }
{
    let mut plan = [0u32; CHECK_PLAN];
    prepare(image, &mut plan)
}
