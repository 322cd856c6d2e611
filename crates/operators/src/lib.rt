// The operators on values of the scalar kinds, by operator number and operand kind.
// Operators and kinds are matched as numbers: so document 01's list of forms has it.
#![tactic(auto)]

ghost use Rattle.std.specs.Prelude.{◌≡◌};
ghost use Rattle.operators.specs.Operators.{compare_of, integers_of, sets_of, booleans_of, membership_of, monadic_of};
ghost use Rattle.operators.specs.Operators.{decides as decides_of};

use values::{Stop, Value};

// Operators 7 to 12, from whether the left is less and whether the two are equal.
fn compare(op: u16, less: bool, equal: bool) -> bool
    ensures { result ≡ compare_of op less equal }
{
    match op {
        7 => equal,
        8 => !equal,
        9 => less,
        10 => less | equal,
        11 => !(less | equal),
        _ => !less,
    }
}

// An operator on two INTEGERs.
pub fn integers(op: u16, x: i32, y: i32) -> Result<Value, Stop>
    ensures { result ≡ integers_of op x y }
{
    match op {
        1..=5 => integers::arithmetic(op, x, y),
        7..=12 => Ok(Value::Bool(compare(op, x < y, x == y))),
        16 => sets::range(x, y),
        _ => Err(Stop::Stuck),
    }
}

// An operator on two SETs.
pub fn sets(op: u16, s: u32, t: u32) -> Result<Value, Stop>
    ensures { result ≡ sets_of op s t }
{
    match op {
        1 => Ok(Value::Set(s | t)),
        2 => Ok(Value::Set(s & sets::complement(t))),
        3 => Ok(Value::Set(s & t)),
        6 => Ok(Value::Set(s ^ t)),
        7..=8 => Ok(Value::Bool(compare(op, false, s == t))),
        _ => Err(Stop::Stuck),
    }
}

// An operator on two BOOLEANs.
pub fn booleans(op: u16, p: bool, q: bool) -> Result<Value, Stop>
    ensures { result ≡ booleans_of op p q }
{
    match op {
        7..=8 => Ok(Value::Bool(compare(op, false, p == q))),
        13 => Ok(Value::Bool(p & q)),
        14 => Ok(Value::Bool(p | q)),
        _ => Err(Stop::Stuck),
    }
}

// An operator on an INTEGER and a SET.
pub fn membership(op: u16, x: i32, t: u32) -> Result<Value, Stop>
    ensures { result ≡ membership_of op x t }
{
    match op {
        15 => sets::contains(x, t),
        _ => Err(Stop::Stuck),
    }
}

// A monadic operator.
pub fn monadic(op: u16, operand: Value) -> Result<Value, Stop>
    ensures { result ≡ monadic_of op operand }
{
    match (operand, op) {
        (Value::Int(x), 1) => integers::subtract(0, x),
        (Value::Set(s), 1) => Ok(Value::Set(sets::complement(s))),
        (Value::Bool(p), 2) => Ok(Value::Bool(!p)),
        _ => Err(Stop::Stuck),
    }
}

// Whether the left operand of & or OR decides, so that the right one is skipped.
pub fn decides(op: u16, left: Value) -> bool
    ensures { result ≡ decides_of op left }
{
    match (left, op) {
        (Value::Bool(p), 13) => !p,
        (Value::Bool(p), 14) => p,
        _ => false,
    }
}
