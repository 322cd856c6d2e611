// Where objects begin within others. Two lent tables have a word for each type row, of a bit for each type that is
// looked for: whether an object declared with it begins at the start of that row's objects, and at their end. A row's
// words are put together from those of its parts, which stand in lower rows. By them a look at a type's parts settles
// the answer, or leads to one part: what begins there is the answer. Contracts of looks say it for any test `deeper` of
// which the tables are the edges.
#![tactic(auto)]

ghost use Rattle.std.specs.Prelude.{◌≡◌, Bool, false, List, ◌++◌, map, ℕ, ◌+◌, ◌-◌, ◌*◌, ◌≤◌, ◌<◌, eqb, length, get_or, replicate};
ghost use Rattle.std.specs.Int.Bits.{bit_or};
ghost use Rattle.prelude.specs.Bits.{bit_of};
ghost use Rattle.prelude.specs.Choice.{choose};
ghost use Rattle.prelude.specs.Parts.{sum};
ghost use Rattle.image.specs.Rows.{row_at, rows_of};
ghost use Rattle.shapes.specs.Forms.{of_base, own_types};
ghost use Rattle.shapes.specs.Sizes.{fields_of};
ghost use Rattle.objects.specs.Begins.{parts_of, among as among_of, begins_at};
ghost use Rattle.objects.specs.Looking.{held, Typed, Edges, AtEdges, Beyond, LowTypes, Fields, Ahead, told_by};
ghost use Rattle.objects.specs.Looking.{settled, said_of_base, Below};
ghost use Rattle.objects.specs.Tables.{ROWS, AllEdges};

// How many types there are at most: a table has a word for each, and a word a bit for each.
pub const ROWS: usize = 64;

// What begins at an edge of each type, in words: bit w of word r is of type w at that edge of type row r's objects.
pub type Words = [u64; ROWS];

// What is said of starts, and of ends.
#[derive(Clone, Copy)]
pub struct Edged<T> {
    pub starts: T,
    pub ends: T,
}

// The words of one row.
pub type EdgeWords = Edged<u64>;

// The two tables.
type Tables<'a> = Edged<&'a Words>;

// What a look at the parts of an object settles: one begins there, none does, or the answer is that of a part of this
// type, so many cells into it. Three answers, and not a value or its absence.
#[derive(Clone, Copy)]
pub enum Look {
    Yes,
    No,
    Inside(usize, u32),
}

// What a table says of type w, and type row i.
pub fn marked(s: &Words, w: u16, i: u16) -> bool
    requires { (w < ROWS) × (i < ROWS) }
    ensures { result ≡ bit_of (get_or s.now i 0) w }
{
    (s[i as usize] >> (w as u64)) % 2 == 1
}

// A look that leads nowhere.
impl From<bool> for Look {
    fn from(b: bool) -> Look
        ensures { result ≡ told_by b }
    {
        if b { Look::Yes } else { Look::No }
    }
}

// Whether one begins where the fields from row k on start, which have cells.
fn among_first(f: &[u8], plan: &[u32], starts: &Words, w: u16, k: usize) -> bool
    requires { Ahead f.now plan.now k 0 × (w < ROWS) }
    ensures { (deeper : ℕ → ℕ → Bool) (e m : ℕ) (ends : List ℕ)
        → Edges deeper (held plan.now) w m starts.now ends
        → Fields f.now plan.now k e m 0
        → result ≡ among_of deeper (held plan.now) (own_types f.now k (e - k)) 0 }
{
    let mut j = k;
    // By the promise `Ahead` a field before the end has cells: a `for` would end, and need an answer behind it.
    loop {
        let u = image::a_at(f, j);
        if marked(starts, w, u) {
            return true;
        }
        if 0 < plan[u as usize] {
            return false;
        }
        j += 1;
    }
}

// A look o cells into the fields from row k on, between their edges.
fn among(f: &[u8], plan: &[u32], tables: Tables, w: u16, k: usize, o: u32) -> Look
    requires { Ahead f.now plan.now k o × (w < ROWS) × (0 < o) }
    ensures by_index { (deeper : ℕ → ℕ → Bool) (e m : ℕ)
        → Edges deeper (held plan.now) w m tables.entry.starts.now tables.entry.ends.now
        → Fields f.now plan.now k e m o
        → settled deeper result ≡ among_of deeper (held plan.now) (own_types f.now k (e - k)) o }
    ensures lower { (e m : ℕ) → Fields f.now plan.now k e m o
        → Below (held plan.now) m result }
{
    let mut j = k;
    let mut rest = o;
    // By the promise `Ahead` a field has the place: a `for` would end, and need an answer behind it.
    loop {
        let u = image::a_at(f, j);
        let size = plan[u as usize];
        if rest < size {
            return Look::Inside(u as usize, rest);
        }
        if rest == size {
            return Look::from(
                marked(tables.ends, w, u) || among_first(f, plan, tables.starts, w, j + 1),
            );
        }
        j += 1;
        rest -= size;
    }
}

// The size of a record's base, whose row plus 1 is a: `sizes::base_size` without a test, as the plan has that row.
fn base_cells(plan: &[u32], a: u16) -> u32
    requires { a ≤ length plan.now }
    ensures { result ≡ of_base 0 (held plan.now) a }
{
    let Some(base) = (a as usize).checked_sub(1) else {
        return 0;
    };
    plan[base]
}

// A look o cells into the fields of the record in row r, between its edges: what is behind a base's start begins in the
// base as in a field.
fn fields(t: &[u8], f: &[u8], plan: &[u32], tables: Tables, w: u16, r: usize, o: u32) -> Look
    requires { Typed t.now f.now plan.now × (w < ROWS) × (r < rows_of t.now)
        × ((row_at t.now r).kind ≡ 4) × (0 < o) × (o < held plan.now r) }
    ensures result_value { Edges (begins_at t.now f.now w) (held plan.now) w r
        tables.entry.starts.now tables.entry.ends.now
        → settled (begins_at t.now f.now w) result
        ≡ among_of (begins_at t.now f.now w) (held plan.now)
        (fields_of t.now f.now r) o }
    ensures lower { Below (held plan.now) r result }
{
    let row = image::row_at(t, r);
    let first = row.b as usize;
    let before = base_cells(plan, row.a);
    if before < o {
        return among(f, plan, tables, w, first, o - before);
    }
    let base = row.a - 1;
    if o < before {
        return Look::Inside(base as usize, o);
    }
    Look::from(marked(tables.ends, w, base) || among_first(f, plan, tables.starts, w, first))
}

// A look o cells into elements of type row e, which have more: where one ends the next starts.
fn elements(plan: &[u32], tables: Tables, w: u16, e: u16, o: u32) -> Look
    requires { (w < ROWS) × (e < ROWS) × (0 < held plan.now e) × (0 < o) }
    ensures by_index { (deeper : ℕ → ℕ → Bool) (m n : ℕ)
        → Edges deeper (held plan.now) w m tables.entry.starts.now tables.entry.ends.now → e < m
        → o < n * held plan.now e
        → settled deeper result ≡ among_of deeper (held plan.now) (replicate n e) o }
    ensures lower { (m : ℕ) → e < m → Below (held plan.now) m result }
{
    let size = sizes::cell(plan, e as usize);
    let inside = o % size;
    if 0 < inside {
        return Look::Inside(e as usize, inside);
    }
    Look::from(marked(tables.starts, w, e) || marked(tables.ends, w, e))
}

// A look o cells into the parts of type row r, between its edges: it is an array or a record.
fn parts(t: &[u8], f: &[u8], plan: &[u32], tables: Tables, w: u16, r: usize, o: u32) -> Look
    requires { Typed t.now f.now plan.now × (w < ROWS) × (r < rows_of t.now) × (0 < o)
        × (o < held plan.now r) }
    ensures result_value { Edges (begins_at t.now f.now w) (held plan.now) w r
        tables.entry.starts.now tables.entry.ends.now
        → settled (begins_at t.now f.now w) result
        ≡ among_of (begins_at t.now f.now w) (held plan.now)
        (parts_of t.now f.now r) o }
    ensures lower { Below (held plan.now) r result }
{
    let row = image::row_at(t, r);
    if row.kind == 3 {
        return elements(plan, tables, w, row.a, o);
    }
    fields(t, f, plan, tables, w, r, o)
}

// Whether one begins o cells into the parts of type row r, between its edges, at any depth.
fn reached(t: &[u8], f: &[u8], plan: &[u32], tables: Tables, w: u16, r: u16, o: u32) -> bool
    requires { Typed t.now f.now plan.now × (w < ROWS) × (r < rows_of t.now) × (0 < o)
        × (o < held plan.now r) }
    ensures { Edges (begins_at t.now f.now w) (held plan.now) w r tables.entry.starts.now tables.entry.ends.now
        → result ≡ among_of (begins_at t.now f.now w) (held plan.now)
        (parts_of t.now f.now r) o }
{
    let mut at = r as usize;
    let mut into = o;
    // from part to part, not by an index
    loop {
        match parts(t, f, plan, tables, w, at, into) {
            Look::Yes => return true,
            Look::No => return false,
            Look::Inside(u, x) => {
                at = u;
                into = x;
            }
        }
    }
}

// The word without bit i.
fn without(word: u64, i: u16) -> u64
    requires { i < ROWS }
    ensures { (w : ℕ) → bit_of result w ≡ choose (eqb i w) false (bit_of word w) }
{
    let own = 1u64 << (i as u64);
    (word | own) ^ own
}

// What begins at the edges of a record's base, whose row plus 1 is a: the base's part is no object.
fn base_edges(tables: Tables, a: u16) -> EdgeWords
    requires { a ≤ ROWS }
    ensures { (w : ℕ) → (bit_of result.starts w ≡ said_of_base tables.entry.starts.now w a)
        × (bit_of result.ends w ≡ said_of_base tables.entry.ends.now w a) }
{
    let Some(base) = a.checked_sub(1) else {
        return Edged { starts: 0, ends: 0 };
    };
    Edged {
        starts: without(tables.starts[base as usize], base),
        ends: without(tables.ends[base as usize], base),
    }
}

// What a word says, and also what another says where the n cells between them are none.
fn across(word: u64, n: usize, other: u64) -> u64
    ensures { result ≡ choose (eqb n 0) (bit_or word other) word }
{
    if n == 0 { word | other } else { word }
}

// What begins at the edges of parts of so many cells, and n fields from row k on behind them.
fn field_edges(
    f: &[u8],
    plan: &[u32],
    tables: Tables,
    base: EdgeWords,
    before: u32,
    k: u16,
    n: u16,
) -> EdgeWords
    requires { LowTypes f.now k (k + n) ROWS }
    ensures { (deeper : ℕ → ℕ → Bool) (w m : ℕ) (l : List ℕ)
        → Edges deeper (held plan.now) w m tables.entry.starts.now tables.entry.ends.now
        → LowTypes f.now k (k + n) m → sum (map (held plan.now) l) ≡ before
        → AtEdges (among_of deeper (held plan.now) l) before w base.starts base.ends
        → AtEdges (among_of deeper (held plan.now) (l ++ own_types f.now k n))
        (sum (map (held plan.now) (l ++ own_types f.now k n))) w result.starts result.ends }
{
    let mut first = base.starts;
    let mut last = base.ends;
    let mut size = before as usize;
    for j in k as usize..k as usize + n as usize {
        let u = image::a_at(f, j) as usize;
        let own = sizes::cell(plan, u) as usize;
        first = across(first, size, tables.starts[u]);
        last = across(tables.ends[u], own, last);
        size += own;
    }
    Edged {
        starts: first,
        ends: last,
    }
}

// What begins at the edges of the parts of type row r: an array's are its element's.
fn part_edges(t: &[u8], f: &[u8], plan: &[u32], tables: Tables, r: usize) -> EdgeWords
    requires { Typed t.now f.now plan.now × (r < rows_of t.now) }
    ensures { (w : ℕ) → Edges (begins_at t.now f.now w) (held plan.now) w r
        tables.entry.starts.now tables.entry.ends.now
        → AtEdges (among_of (begins_at t.now f.now w) (held plan.now)
        (parts_of t.now f.now r)) (held plan.now r) w result.starts result.ends }
{
    let row = image::row_at(t, r);
    match row.kind {
        3 => Edged {
            starts: tables.starts[row.a as usize],
            ends: tables.ends[row.a as usize],
        },
        4 => {
            let base = base_edges(tables, row.a);
            let before = base_cells(plan, row.a);
            field_edges(f, plan, tables, base, before, row.b, row.c)
        }
        _ => Edged { starts: 0, ends: 0 },
    }
}

// What begins at the edges of type row r: an object begins at its own start, which is its end where it has no cells.
fn edges(t: &[u8], f: &[u8], plan: &[u32], tables: Tables, r: usize) -> EdgeWords
    requires { Typed t.now f.now plan.now × (r < rows_of t.now) }
    ensures { (w : ℕ) → Edges (begins_at t.now f.now w) (held plan.now) w r
        tables.entry.starts.now tables.entry.ends.now
        → AtEdges (begins_at t.now f.now w r) (held plan.now r) w result.starts
        result.ends }
{
    let inner = part_edges(t, f, plan, tables, r);
    let own = 1u64 << (r as u64);
    let size = sizes::cell(plan, r) as usize;
    Edged {
        starts: inner.starts | own,
        ends: across(inner.ends, size, own),
    }
}

// Fills the tables: the words of every type row. The two are lent apart, as who has them makes them.
pub fn fill(t: &[u8], f: &[u8], plan: &[u32], starts: &mut Words, ends: &mut Words)
    requires { Typed t.now f.now plan.now × (ROWS ≤ length starts.old) × (ROWS ≤ length ends.old) }
    ensures all_edges { AllEdges t.now f.now plan.now starts.new
        ends.new }
    ensures starts { Beyond (rows_of t.now) starts.old starts.new }
    ensures ends { Beyond (rows_of t.now) ends.old ends.new }
{
    for r in 0..image::rows_of(t) {
        let x = edges(t, f, plan, Edged { starts, ends }, r);
        starts[r] = x.starts;
        ends[r] = x.ends;
    }
}

// Whether an object declared with type w begins o cells into one of type row r.
pub fn holds(
    t: &[u8],
    f: &[u8],
    plan: &[u32],
    starts: &Words,
    ends: &Words,
    w: u16,
    r: u16,
    o: u32,
) -> bool
    requires { Typed t.now f.now plan.now × AllEdges t.now f.now plan.now starts.now ends.now
        × (w < rows_of t.now) × (r < rows_of t.now) }
    ensures { result ≡ begins_at t.now f.now w r o }
{
    if o == 0 {
        return marked(starts, w, r);
    }
    let size = sizes::cell(plan, r as usize);
    if o == size {
        return marked(ends, w, r);
    }
    o < size && reached(t, f, plan, Edged { starts, ends }, w, r, o)
}
