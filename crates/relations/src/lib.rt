// Relations of types: extension, and the fields of a record.
#![tactic(auto)]

ghost use Rattle.std.specs.Prelude.{◌≡◌};
ghost use Rattle.relations.specs.Extends.{extends as extends_of};
ghost use Rattle.relations.specs.Fields.{planned_own, planned_field};

use sizes::{INHERITED, OFFSETS};

// A field: where it begins in its record, and the type that it is declared with.
#[derive(Clone, Copy)]
pub struct FieldAt {
    pub offset: u32,
    pub declared: u16,
}

// Whether type row r extends row u.
pub fn extends(t: &[u8], r: u16, u: u16) -> bool
    ensures { result ≡ extends_of t.now r u }
{
    let sought = u as usize;
    let mut at = r as usize;
    // up the bases, not by an index
    while at != sought {
        let row = image::row_at(t, at);
        // By `checked_sub` a climb takes a fifth more time: each base waits for the one before.
        let base = shapes::base_of(row);
        if base == 0 {
            return false;
        }
        let next = (base as usize) - 1;
        if at <= next {
            return false;
        }
        at = next;
    }
    true
}

// Own field j of a record whose own fields are c rows from row b on.
fn own_field(f: &[u8], plan: &[u32], b: u16, c: u16, j: usize) -> Option<FieldAt>
    ensures { result ≡ planned_own f.now plan.now b c j }
{
    if c as usize <= j {
        return None;
    }
    let k = b as usize + j;
    Some(FieldAt {
        offset: sizes::cell(plan, OFFSETS + k),
        declared: image::row_at(f, k).a,
    })
}

// Field n of type row r, the base's fields counted first, as the plan has it.
pub fn field(t: &[u8], f: &[u8], plan: &[u32], r: u16, n: u16) -> Option<FieldAt>
    ensures { result ≡ planned_field t.now f.now plan.now n r }
{
    let sought = n as usize;
    let mut at = r as usize;
    // up the bases, not by an index
    loop {
        let row = image::row_at(t, at);
        if row.kind != 4 {
            return None;
        }
        let inherited = sizes::cell(plan, INHERITED + at) as usize;
        if inherited <= sought {
            return own_field(f, plan, row.b, row.c, sought - inherited);
        }
        if row.a == 0 {
            return None;
        }
        let base = row.a as usize - 1;
        if at <= base {
            return None;
        }
        at = base;
    }
}
