// Asks the crates values and operators the cases of data/operators.bin, whose answers an independent script wrote,
// and prints for each kind of question how many came out the same and how many did not. tests/operators.py has the
// format.
#![tactic(auto)]

ghost use Rattle.std.specs.Prelude.{◌≡◌, ◌+◌, ◌*◌, ◌<◌, ◌≤◌, ◌/◌, length, get_or, IfOk};
ghost use Rattle.operators.specs.Operators.{dyadic_of};
ghost use Rattle.cases_values.specs.Cases.{half_at, operand_at, wide_at, dyadic_case, monadic_case, cell_case};
ghost use Rattle.cases_values.specs.Cases.{number_case, answer_of, agrees as agrees_of};
ghost use Rattle.cases_values.specs.Cases.{is_good, weight_at, counted};

use std::fs::File;
use std::io;
use std::io::Read;
use values::{Stop, Value};

// ---- a case's parts

// Two bytes as a number.
fn half_at(s: &[u8], at: usize) -> u16
    requires { at + 2 ≤ length s.now }
    ensures { result ≡ half_at s.now at }
{
    u16::from_be_bytes([s[at], s[at + 1]])
}

// The operand of a kind whose 32 bits stand at a byte.
fn operand_at(s: &[u8], kind: u8, at: usize) -> Result<Value, Stop>
    requires { at + 4 ≤ length s.now }
    ensures { result ≡ operand_at s.now kind at }
{
    values::constant(kind.into(), half_at(s, at), half_at(s, at + 2))
}

// The 64 bits of a cell's number.
fn wide_at(high: i32, b: u16, c: u16) -> i64
    ensures { result ≡ wide_at high b c }
{
    let low = (b as u32) * 65536 + (c as u32);
    (high as i64) * 4294967296 + (low as i64)
}

// ---- what the crates answer

// A dyadic operator, by its operands' kinds.
fn dyadic(op: u16, left: Value, right: Value) -> Result<Value, Stop>
    ensures { result ≡ dyadic_of op left right }
{
    match (left, right) {
        (Value::Bool(p), Value::Bool(q)) => operators::booleans(op, p, q),
        (Value::Int(x), Value::Int(y)) => operators::integers(op, x, y),
        (Value::Int(x), Value::Set(t)) => operators::membership(op, x, t),
        (Value::Set(s), Value::Set(t)) => operators::sets(op, s, t),
        _ => Err(Stop::Stuck),
    }
}

fn dyadic_case(s: &[u8]) -> Result<Value, Stop>
    requires { 17 ≤ length s.now }
    ensures { result ≡ dyadic_case s.now }
{
    let left = operand_at(s, s[2], 4)?;
    let right = operand_at(s, s[3], 8)?;
    dyadic(s[1].into(), left, right)
}

fn monadic_case(s: &[u8]) -> Result<Value, Stop>
    requires { 17 ≤ length s.now }
    ensures { result ≡ monadic_case s.now }
{
    let operand = operand_at(s, s[2], 4)?;
    operators::monadic(s[1].into(), operand)
}

fn cell_case(s: &[u8]) -> Result<Value, Stop>
    requires { 17 ≤ length s.now }
    ensures { result ≡ cell_case s.now }
{
    let high = operand_at(s, 1, 4)?;
    let Value::Int(h) = high else {
        return Err(Stop::Stuck);
    };
    values::cell(s[2].into(), wide_at(h, half_at(s, 8), half_at(s, 10)))
}

fn number_case(s: &[u8]) -> Result<Value, Stop>
    requires { 17 ≤ length s.now }
    ensures { result ≡ number_case s.now }
{
    let operand = operand_at(s, s[2], 4)?;
    values::cell(s[2].into(), values::number_of(operand))
}

fn answer(s: &[u8]) -> Result<Value, Stop>
    requires { 17 ≤ length s.now }
    ensures { result ≡ answer_of s.now }
{
    match s[0] {
        0 => dyadic_case(s),
        1 => monadic_case(s),
        2 => cell_case(s),
        3 => operand_at(s, s[2], 4),
        _ => number_case(s),
    }
}

// ---- against what the case says

fn agrees(a: Result<Value, Stop>, s: &[u8]) -> bool
    requires { 17 ≤ length s.now }
    ensures { result ≡ agrees_of a s.now }
{
    match a {
        Ok(v) => Ok(v) == operand_at(s, s[12], 13),
        Err(Stop::Trap(t)) => s[12] == 3 && values::trap_number(t) as u16 == half_at(s, 15),
        Err(Stop::Stuck) => s[12] == 4,
    }
}

fn is_good(s: &[u8]) -> bool
    requires { 17 ≤ length s.now }
    ensures { result ≡ is_good s.now }
{
    agrees(answer(s), s)
}

// 1 for a case of this question that is as good as asked, else 0.
fn weight_at(cases: &[u8], k: usize, what: u8, good: bool) -> usize
    requires { k * 17 + 17 ≤ length cases.now }
    ensures { (result ≡ weight_at cases.now what good k) × (result ≤ 1) }
{
    let s = &cases[k * 17..k * 17 + 17];
    if s[0] == what && is_good(s) == good {
        1
    } else {
        0
    }
}

// How many cases of this question are as good as asked.
fn count(cases: &[u8], what: u8, good: bool) -> usize
    ensures { result ≡ counted cases.now what good (length cases.now / 17) }
{
    let mut n = 0;
    for k in 0..cases.len() / 17 {
        n += weight_at(cases, k, what, good);
    }
    n
}

// Prints a line, and gives back how many were different.
fn report(rt: &impl Print, name: &str, same: usize, different: usize) -> io::Result<usize>
    ensures { IfOk result (λ n. n ≡ different) }
{
    println!(rt; "{name} {same} same, {different} different")?;
    Ok(different)
}

fn main(rt: HostRuntime) -> io::Result<()> {
    let name = "operators.bin";
    let file = match File::open(&rt, name) {
        Ok(file) => file,
        Err(error) => return eprintln!(rt; "{name}: {error}"),
    };
    let mut bytes = Vec::new(rt.alloc());
    file.take(200000).read_to_end(&mut bytes)?;
    let cases = bytes.as_slice();
    report(&rt, "dyadic", count(cases, 0, true), count(cases, 0, false))?;
    report(
        &rt,
        "monadic",
        count(cases, 1, true),
        count(cases, 1, false),
    )?;
    report(&rt, "cell", count(cases, 2, true), count(cases, 2, false))?;
    report(
        &rt,
        "constant",
        count(cases, 3, true),
        count(cases, 3, false),
    )?;
    report(&rt, "number", count(cases, 4, true), count(cases, 4, false))?;
    Ok(())
}
