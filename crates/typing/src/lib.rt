// Question 10: the types of the nodes, from the low rows up.
#![tactic(auto)]

ghost use Rattle.std.specs.Prelude.{◌≡◌, ◌≤◌, length};
ghost use Rattle.image.specs.Rows.{row_at, rows_of};
ghost use Rattle.types.specs.Question.{TypesAccepted};
ghost use Rattle.types.specs.Plan.{Plan};
ghost use Rattle.typing.specs.Typing.{type_in, variable_node, field_node, element_node, narrows as narrows_to};
ghost use Rattle.typing.specs.Typing.{narrow_node};
ghost use Rattle.typing.specs.Typing.{dyadic_node, monadic_node, type_by, type_of, passed, Typed, question10};

use image::Row;

// The type of node k in a table of the lower rows' types.
pub fn type_at(types: &[u16], k: usize) -> Option<u16>
    ensures { result ≡ type_in types.now k }
{
    if k < types.len() {
        Some(types[k])
    } else {
        None
    }
}

#[tactic(auto, unfolding(crate::specs::Typing::field_node, crate::specs::Typing::typed))]
fn field_node(t: &[u8], f: &[u8], plan: &[u32], types: &[u16], row: Row) -> Option<u16>
    requires { TypesAccepted t.now f.now × Plan t.now f.now (rows_of t.now) plan.now }
    ensures { result ≡ field_node t.now f.now (type_in types.now) row }
{
    let whole = type_at(types, row.a as usize)?;
    let part = relations::field(t, f, plan, whole, row.b)?;
    Some(part.declared)
}

#[tactic(auto, unfolding(crate::specs::Typing::element_node, crate::specs::Typing::typed))]
fn element_node(t: &[u8], types: &[u16], row: Row) -> Option<u16>
    ensures { result ≡ element_node t.now (type_in types.now) row }
{
    let whole = type_at(types, row.a as usize)?;
    let index = type_at(types, row.b as usize)?;
    let array = image::row_at(t, whole as usize);
    if array.kind == 3 && index == 1 {
        Some(array.a)
    } else {
        None
    }
}

// Whether a guard or test may narrow variable a to type b.
fn narrows(t: &[u8], v: &[u8], a: u16, b: u16) -> bool
    ensures { result ≡ narrows_to t.now v.now a b }
{
    let variable = image::row_at(v, a as usize);
    variable.kind == 3
        && image::row_at(t, variable.a as usize).kind == 4
        && relations::extends(t, b, variable.a)
}

fn narrow_node(t: &[u8], v: &[u8], row: Row, given: u16) -> Option<u16>
    ensures { result ≡ narrow_node t.now v.now row given }
{
    if narrows(t, v, row.a, row.b) {
        Some(given)
    } else {
        None
    }
}

#[tactic(auto, unfolding(crate::specs::Typing::dyadic_node, crate::specs::Typing::typed))]
fn dyadic_node(t: &[u8], types: &[u16], row: Row) -> Option<u16>
    ensures { result ≡ dyadic_node t.now (type_in types.now) row }
{
    let left = type_at(types, row.a as usize)?;
    let right = type_at(types, row.b as usize)?;
    let first = shapes::kind_in(t, left);
    let second = shapes::kind_in(t, right);
    kinds::dyadic_kind(row.c, first, second)
}

#[tactic(auto, unfolding(crate::specs::Typing::monadic_node, crate::specs::Typing::typed))]
fn monadic_node(t: &[u8], types: &[u16], row: Row) -> Option<u16>
    ensures { result ≡ monadic_node t.now (type_in types.now) row }
{
    let operand = type_at(types, row.a as usize)?;
    let kind = shapes::kind_in(t, operand);
    kinds::monadic_kind(row.c, kind)
}

fn variable_node(v: &[u8], row: Row) -> Option<u16>
    ensures { result ≡ variable_node v.now row }
{
    Some(image::row_at(v, row.a as usize).a)
}

// The type of a node from those of the lower rows. Each kind reads other tables, so a struct of all would be no plainer.
fn node_type(t: &[u8], f: &[u8], plan: &[u32], v: &[u8], types: &[u16], row: Row) -> Option<u16>
    requires { TypesAccepted t.now f.now × Plan t.now f.now (rows_of t.now) plan.now }
    ensures { result ≡ type_by t.now f.now v.now (type_in types.now)
        row.kind row }
{
    match row.kind {
        0 => Some(row.a),
        1 => variable_node(v, row),
        2 => field_node(t, f, plan, types, row),
        3 => element_node(t, types, row),
        4 => narrow_node(t, v, row, row.b),
        5 => dyadic_node(t, types, row),
        6 => monadic_node(t, types, row),
        7 => narrow_node(t, v, row, 0),
        8 => type_at(types, row.a as usize),
        _ => None,
    }
}

// Question 10. The types go into a lent table, one number a node.
pub fn check_typing(
    t: &[u8],
    f: &[u8],
    plan: &[u32],
    v: &[u8],
    n: &[u8],
    types: &mut [u16],
) -> Result<(), u16>
    requires { TypesAccepted t.now f.now × Plan t.now f.now (rows_of t.now) plan.now × (rows_of
        n.now ≤ 2048) × (rows_of n.now ≤ length types.old) }
    ensures value { result ≡ question10 t.now f.now v.now n.now }
    ensures types { Typed (type_of t.now f.now v.now n.now)
        (passed n.now result) types.old types.new }
{
    for r in 0..image::rows_of(n) {
        let row = image::row_at(n, r);
        let Some(given) = node_type(t, f, plan, v, &types[..r], row) else {
            return Err(r as u16);
        };
        types[r] = given;
    }
    Ok(())
}
