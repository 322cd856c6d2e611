// Values of the scalar kinds: how a cell and a constant hold them.
#![tactic(auto)]

ghost use Rattle.std.specs.Prelude.{◌≡◌};
ghost use Rattle.values.specs.Values.{trap_number, number_of, boolean_cell, integer_cell, set_cell, cell_of};
ghost use Rattle.values.specs.Values.{is_integer, constant_of};

// A value of a scalar kind.
#[derive(Clone, Copy, PartialEq, Eq)]
pub enum Value {
    Bool(bool),
    Int(i32),
    Set(u32),
}

// Why a step ended early, with document 01's numbers.
#[derive(Clone, Copy, PartialEq, Eq)]
pub enum Trap {
    Index = 1,
    Guard = 2,
    Target = 3,
    Overflow = 4,
    Divisor = 5,
    Bound = 6,
    Frame = 7,
    Input = 8,
    Output = 9,
    Halt = 10,
}

// Why an evaluation gives no value: a trap, or no rule applies.
#[derive(Clone, Copy, PartialEq, Eq)]
pub enum Stop {
    Trap(Trap),
    Stuck,
}

// ---- cells, constants and numbers

// Document 01's number of a trap.
#[tactic(auto, unfolding(crate::specs::Values::trap_number))]
pub fn trap_number(t: Trap) -> u8
    ensures { result ≡ trap_number t }
{
    t as u8
}

// The number that a cell holds for a value.
pub fn number_of(v: Value) -> i64
    ensures { result ≡ number_of v }
{
    match v {
        Value::Bool(b) => b as i64,
        Value::Int(z) => z as i64,
        Value::Set(s) => s as i64,
    }
}

fn boolean_cell(z: i64) -> Result<Value, Stop>
    ensures { result ≡ boolean_cell z }
{
    if z == 0 {
        Ok(Value::Bool(false))
    } else if z == 1 {
        Ok(Value::Bool(true))
    } else {
        Err(Stop::Stuck)
    }
}

// Whether a number is in the range of INTEGER. (std's i32::try_from goes by way of a sign and a magnitude, which costs
// each read of a cell more.)
pub fn is_integer(z: i64) -> bool
    ensures { result ≡ is_integer z }
{
    -2147483648 <= z && z <= 2147483647
}

fn integer_cell(z: i64) -> Result<Value, Stop>
    ensures { result ≡ integer_cell z }
{
    if is_integer(z) {
        Ok(Value::Int(z as i32))
    } else {
        Err(Stop::Stuck)
    }
}

// (Not by std's try_from: see is_integer.)
fn set_cell(z: i64) -> Result<Value, Stop>
    ensures { result ≡ set_cell z }
{
    if 0 <= z && z <= 4294967295 {
        Ok(Value::Set(z as u32))
    } else {
        Err(Stop::Stuck)
    }
}

// A cell's number as a value of a kind: 0 BOOLEAN, 1 INTEGER, 2 SET. Any number may be asked: others are no kind.
pub fn cell(kind: u16, z: i64) -> Result<Value, Stop>
    ensures { result ≡ cell_of kind z }
{
    match kind {
        0 => boolean_cell(z),
        1 => integer_cell(z),
        2 => set_cell(z),
        _ => Err(Stop::Stuck),
    }
}

// A constant of a kind, whose 32 bits are b and c, in two's complement for an INTEGER.
pub fn constant(kind: u16, b: u16, c: u16) -> Result<Value, Stop>
    ensures { result ≡ constant_of kind b c }
{
    let bits = (b as u32) * 65536 + (c as u32);
    match kind {
        0 => boolean_cell(bits as i64),
        1 => Ok(Value::Int(bits.cast_signed())),
        2 => Ok(Value::Set(bits)),
        _ => Err(Stop::Stuck),
    }
}
