// The operators + - * DIV MOD on INTEGERs.
#![tactic(auto)]

ghost use Rattle.std.specs.Prelude.{false, ◌≡◌, ◌<◌, ◌≤◌, eqb, nat_abs, ◌+ℤ◌, ◌-ℤ◌, ◌*ℤ◌};
ghost use Rattle.std.specs.Int.Signed.{mag};
ghost use Rattle.integers.specs.Integers.{integer_of, quotient_of, div_of, mod_of, division_of, arithmetic_of};

use values::{Stop, Trap, Value};

// An INTEGER, or trap 4 where it is out of range.
fn integer(z: i64) -> Result<Value, Stop>
    ensures { result ≡ integer_of z }
{
    if values::is_integer(z) {
        Ok(Value::Int(z as i32))
    } else {
        Err(Stop::Trap(Trap::Overflow))
    }
}

fn add(x: i32, y: i32) -> Result<Value, Stop>
    ensures { result ≡ integer_of (x +ℤ y) }
{
    integer((x as i64) + (y as i64))
}

// The difference, or trap 4 where it is out of range.
pub fn subtract(x: i32, y: i32) -> Result<Value, Stop>
    ensures { result ≡ integer_of (x -ℤ y) }
{
    integer((x as i64) - (y as i64))
}

fn multiply(x: i32, y: i32) -> Result<Value, Stop>
    ensures { result ≡ integer_of (x *ℤ y) }
{
    integer((x as i64) * (y as i64))
}

// n for n, and n for -(n + 1).
fn magnitude(x: i64) -> u32
    requires { mag x ≤ 2147483648 }
    ensures { result ≡ mag x }
{
    if x < 0 { (-1 - x) as u32 } else { x as u32 }
}

// The quotient by a positive divisor, rounded down. (std's div_euclid would divide in 64 bits, which a 32-bit processor
// does in software.)
fn quotient(x: i64, d: u32) -> i64
    requires { (mag x ≤ 2147483648) × (0 < d) }
    ensures { result ≡ quotient_of x d }
{
    let q = (magnitude(x) / d) as i64;
    if x < 0 { -1 - q } else { q }
}

// The quotient, rounded down: x by y is -x by -y.
fn div_floor(x: i32, y: i32) -> i64
    requires { eqb (nat_abs y) 0 ≡ false }
    ensures { result ≡ div_of x y }
{
    let a = x as i64;
    let b = y as i64;
    if b < 0 {
        quotient(-a, (-b) as u32)
    } else {
        quotient(a, b as u32)
    }
}

// What the quotient leaves of x: it has the sign of y.
fn mod_floor(x: i32, y: i32) -> i32
    requires { eqb (nat_abs y) 0 ≡ false }
    ensures { result ≡ mod_of x y }
{
    let m = (x as i64) - div_floor(x, y) * (y as i64);
    m as i32
}

// Operators 4 and 5, or trap 5.
fn divide(op: u16, x: i32, y: i32) -> Result<Value, Stop>
    ensures { result ≡ division_of op x y }
{
    if y == 0 {
        return Err(Stop::Trap(Trap::Divisor));
    }
    if op == 4 {
        integer(div_floor(x, y))
    } else {
        Ok(Value::Int(mod_floor(x, y)))
    }
}

// Operators 1 to 5 on two INTEGERs, by number: document 01's list of forms.
pub fn arithmetic(op: u16, x: i32, y: i32) -> Result<Value, Stop>
    ensures { result ≡ arithmetic_of op x y }
{
    match op {
        1 => add(x, y),
        2 => subtract(x, y),
        3 => multiply(x, y),
        _ => divide(op, x, y),
    }
}
