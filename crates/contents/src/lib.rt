// Whether the cells of an object hold values of its layout. A lent table says of each type what its cells are. Cells of
// one kind are one run, and a type that is nothing but a wrapper stands for what it wraps: each level of calls splits
// cells in at least two, so that there are no more calls than cells.
#![tactic(auto)]

ghost use Rattle.std.specs.Prelude.{◌≡◌, [], map, ◌+◌, ◌≤◌, ◌<◌, length, get_or, drop, replicate};
ghost use Rattle.prelude.specs.Cells.{Filled};
ghost use Rattle.prelude.specs.Parts.{joined, sum};
ghost use Rattle.image.specs.Rows.{row_at, rows_of};
ghost use Rattle.shapes.specs.Forms.{form_of, of_base, own_types};
ghost use Rattle.shapes.specs.Sizes.{size_of, layout_of};
ghost use Rattle.types.specs.Question.{TypesAccepted};
ghost use Rattle.objects.specs.Looking.{LowTypes};
ghost use Rattle.asking.specs.State.{values_kept};
ghost use Rattle.contents.specs.Kinds.{EMPTY as NONE, PARTS as SEVERAL, joint as joint_of, joint_from};
ghost use Rattle.contents.specs.Kinds.{repeated as repeated_of, owned as owned_of, even_by, even_of};
ghost use Rattle.contents.specs.Kinds.{lowest as lowest_of, highest as highest_of};
ghost use Rattle.contents.specs.Reading.{Readable, Reads, Inside, Holds};

use image::Row;

// ---- what the cells of a type are: the kind of them all, or one of these numbers
// They are numbers and no enum: + s carries a row in the same byte, where an enum's row would be a second one.

// No cells.
const EMPTY: u8 = 3;

// + s: the cells of type row s, which are of several kinds and in several parts.
const PARTS: u8 = 4;

// Cells of several kinds, while a row's are put together.
const MIXED: u8 = 255;

// What the table says of type row i.
fn kind_at(even: &[u8], i: usize) -> u8
    ensures { result ≡ get_or even.now i 0 }
{
    // Not by `get`: docs/DECISIONS.md, D121.
    if i < even.len() {
        return even[i];
    }
    0
}

// Cells k and then cells j.
fn joint(k: u8, j: u8) -> u8
    ensures { result ≡ joint_of k j }
{
    if k == EMPTY {
        return j;
    }
    if j == EMPTY {
        return k;
    }
    if k != j || EMPTY <= k {
        return MIXED;
    }
    k
}

// A record's base.
fn base_kind(even: &[u8], a: u16) -> u8
    ensures { result ≡ of_base NONE (λ u. get_or even.now u 0) a }
{
    let Some(base) = a.checked_sub(1) else {
        return EMPTY;
    };
    kind_at(even, base as usize)
}

// Cells `before` and then n fields from row k on.
fn own_kind(f: &[u8], even: &[u8], before: u8, k: u16, n: u16) -> u8
    ensures { result ≡ joint_from before (map (λ u. get_or even.now u 0) (own_types f.now k n)) }
{
    let first = k as usize;
    let mut kind = before;
    for j in first..first + n as usize {
        let row = image::row_at(f, j);
        let next = kind_at(even, row.a as usize);
        kind = joint(kind, next);
    }
    kind
}

// n times cells k, which are those of type row r.
fn repeated(r: u8, n: u16, k: u8) -> u8
    requires { r < 64 }
    ensures { result ≡ repeated_of r n k }
{
    if n == 1 || k < PARTS {
        return k;
    }
    PARTS + r
}

// Cells k, which are those of type row r.
fn owned(r: u8, k: u8) -> u8
    requires { r < 64 }
    ensures { result ≡ owned_of r k }
{
    if k == MIXED { PARTS + r } else { k }
}

// Type row r, by what the table says of lower rows.
fn type_kind(f: &[u8], even: &[u8], r: u8, row: Row) -> u8
    requires { r < 64 }
    ensures { result ≡ even_by f.now (λ u. get_or even.now u 0) r (form_of row) }
{
    match row.kind {
        0..=2 => row.kind,
        3 => {
            let element = kind_at(even, row.a as usize);
            repeated(r, row.b, element)
        }
        4 => {
            let base = base_kind(even, row.a);
            let all = own_kind(f, even, base, row.b, row.c);
            owned(r, all)
        }
        _ => EMPTY,
    }
}

// Fills the table.
pub fn fill_even(t: &[u8], f: &[u8], even: &mut [u8])
    requires { (rows_of t.now ≤ 64) × TypesAccepted t.now f.now × (rows_of t.now ≤ length even.old) }
    ensures { Filled 0 (rows_of t.now) (even_of t.now f.now)
        even.old even.new }
{
    let rows = image::rows_of(t);
    for r in 0..rows {
        let row = image::row_at(t, r);
        even[r] = type_kind(f, even, r as u8, row);
    }
}

// ---- cells of one kind

// The lowest number in a cell of this kind.
fn lowest(kind: u8) -> i64
    ensures { result ≡ lowest_of kind }
{
    if kind == 1 {
        return -2147483648;
    }
    0
}

// And the highest.
fn highest(kind: u8) -> i64
    ensures { result ≡ highest_of kind }
{
    match kind {
        0 => 1,
        1 => 2147483647,
        _ => 4294967295,
    }
}

// Whether n cells from address a on hold values of this kind.
fn run(store: &[i64], kind: u8, a: u32, n: u32) -> bool
    requires { (length store.now ≤ 65536) × (kind < NONE) × (a + n ≤ length store.now) }
    ensures { result ≡ values_kept (replicate n kind) (drop a store.now) }
{
    let low = lowest(kind);
    let high = highest(kind);
    let start = a as usize;
    for z in &store[start..start + n as usize] {
        if *z < low || high < *z {
            return false;
        }
    }
    true
}

// ---- cells of a type

// What tells it: the tables of types and fields, the sizes of types, what their cells are, and the store. It is lent by
// a reference that is one number, since these functions call each other. `Reads` is no ghost field: such a fact has one
// proof, and accepted types are of some version, perhaps of two.
#[derive(Drop)]
struct Reader<'a> {
    t: &'a [u8],
    f: &'a [u8],
    plan: &'a [u32],
    even: &'a [u8],
    store: &'a [i64],
}

impl Reader<'_> {
    // What the table says of a type row that it has.
    fn told(&self, u: u16) -> u8
        requires { u < length self.now.even.now }
        ensures { result ≡ get_or self.now.even.now u 0 }
    {
        self.even[u as usize]
    }

    // The size of a type row that is there.
    fn size_of(&self, r: u16) -> u32
        requires { r < length self.now.plan.now }
        ensures { result ≡ get_or self.now.plan.now r 0 }
    {
        self.plan[r as usize]
    }

    // Whether the cells from address a on hold values of the layout of type row r.
    #[cycle(based_fields_object_parted)]
    fn object(&self, r: u16, a: u32) -> bool
        requires { Reads self.now × Holds self.now r a }
        ensures { result ≡ values_kept (layout_of self.now.t.now self.now.f.now r)
            (drop a self.now.store.now) }
    {
        let kind = self.told(r);
        if kind < EMPTY {
            let size = self.size_of(r);
            return run(self.store, kind, a, size);
        }
        if kind == EMPTY {
            return true;
        }
        let core = (kind - PARTS) as u16;
        self.parted(core, a)
    }

    // The same of a type in several parts: an array's elements, or a record's base and own fields.
    #[cycle(based_fields_object_parted)]
    fn parted(&self, r: u16, a: u32) -> bool
        requires { Reads self.now × Holds self.now r a
            × (even_of self.now.t.now self.now.f.now r ≡ SEVERAL + r) }
        ensures { result ≡ values_kept (layout_of self.now.t.now self.now.f.now r)
            (drop a self.now.store.now) }
    {
        let row = image::row_at(self.t, r as usize);
        if row.kind == 4 {
            if self.based(row.a, a) {
                let before = sizes::base_size(self.plan, row.a);
                let own = a + before;
                return self.fields(r, row.b, row.c, own);
            }
            return false;
        }
        let size = self.size_of(row.a);
        let kind = self.told(row.a);
        let core = (kind - PARTS) as u16;
        let mut at = a;
        for _ in 0..row.b {
            if !self.parted(core, at) {
                return false;
            }
            at += size;
        }
        true
    }

    // The same of a record's base, whose row plus 1 is b.
    #[cycle(based_fields_object_parted)]
    fn based(&self, b: u16, a: u32) -> bool
        requires { Reads self.now
            × (b ≤ rows_of self.now.t.now)
            × (a + of_base 0 (size_of self.now.t.now self.now.f.now) b ≤ length self.now.store.now) }
        ensures { result ≡ values_kept (of_base [] (layout_of self.now.t.now self.now.f.now) b)
            (drop a self.now.store.now) }
    {
        let Some(base) = b.checked_sub(1) else {
            return true;
        };
        self.object(base, a)
    }

    // The same of n own fields of the record in row r, from field row k on.
    #[cycle(based_fields_object_parted)]
    fn fields(&self, r: u16, k: u16, n: u16, a: u32) -> bool
        requires { Reads self.now
            × (r < rows_of self.now.t.now) × (k + n ≤ rows_of self.now.f.now)
            × LowTypes self.now.f.now k (k + n) r
            × (a + sum (map (size_of self.now.t.now self.now.f.now) (own_types self.now.f.now k n))
            ≤ length self.now.store.now) }
        ensures { result ≡ values_kept
            (joined (map (layout_of self.now.t.now self.now.f.now) (own_types self.now.f.now k n)))
            (drop a self.now.store.now) }
    {
        let first = k as usize;
        let mut at = a;
        for j in first..first + n as usize {
            let u = image::a_at(self.f, j);
            if self.told(u) == EMPTY {
                continue;
            }
            if !self.object(u, at) {
                return false;
            }
            at += self.size_of(u);
        }
        true
    }
}

// Whether the cells from address a on hold values of the layout of type row r.
pub fn holds_values(
    t: &[u8],
    f: &[u8],
    plan: &[u32],
    even: &[u8],
    store: &[i64],
    r: u16,
    a: u32,
) -> bool
    requires { Readable t.now f.now plan.now even.now store.now × Inside t.now f.now store.now r a }
    ensures { result ≡ values_kept (layout_of t.now f.now r) (drop a store.now) }
{
    let reader = Reader {
        t,
        f,
        plan,
        even,
        store,
    };
    reader.object(r, a)
}
