// Elements of a SET: IN, a range, a complement.
#![tactic(auto)]

ghost use Rattle.std.specs.Prelude.{◌≡◌, ◌<◌};
ghost use Rattle.sets.specs.Sets.{is_element, contains_of, elements_of, range_of, complement_of};

use values::{Stop, Trap, Value};

// Whether x is an element that a SET can have.
fn is_element(x: i32) -> bool
    ensures { result ≡ is_element x }
{
    (0 <= x) & (x < 32)
}

// x IN s, or trap 6 where x is outside 0 to 31.
pub fn contains(x: i32, s: u32) -> Result<Value, Stop>
    ensures { result ≡ contains_of x s }
{
    if !is_element(x) {
        return Err(Stop::Trap(Trap::Bound));
    }
    let member = (s >> x as u32) % 2 == 1;
    Ok(Value::Bool(member))
}

// The elements a to b.
fn elements(a: u32, b: u32) -> u32
    requires { (a < 32) × (b < 32) }
    ensures { result ≡ elements_of a b }
{
    if b < a {
        return 0;
    }
    ((2u64 << b) - (1u64 << a)) as u32
}

// The set a..b, or trap 6 where a bound is outside 0 to 31.
pub fn range(x: i32, y: i32) -> Result<Value, Stop>
    ensures { result ≡ range_of x y }
{
    if is_element(x) && is_element(y) {
        Ok(Value::Set(elements(x as u32, y as u32)))
    } else {
        Err(Stop::Trap(Trap::Bound))
    }
}

// The elements that s does not have.
pub fn complement(s: u32) -> u32
    ensures { result ≡ complement_of s }
{
    !s
}
