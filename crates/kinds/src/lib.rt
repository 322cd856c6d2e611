// The type rules of the operators: which kinds they take, and the kind that they give.
// Operators and kinds are matched as numbers: so document 01's list of forms has it.
#![tactic(auto)]

ghost use Rattle.std.specs.Prelude.{◌≡◌};
ghost use Rattle.kinds.specs.Kinds.{integers_kind, sets_kind, booleans_kind, dyadic_kind, monadic_kind};

// The kind that an operator gives, or None where it does not take such operands.
fn integers_kind(op: u16) -> Option<u16>
    ensures { result ≡ integers_kind op }
{
    match op {
        1..=5 => Some(1),
        7..=12 => Some(0),
        16 => Some(2),
        _ => None,
    }
}

fn sets_kind(op: u16) -> Option<u16>
    ensures { result ≡ sets_kind op }
{
    match op {
        1..=3 => Some(2),
        6 => Some(2),
        7..=8 => Some(0),
        _ => None,
    }
}

fn booleans_kind(op: u16) -> Option<u16>
    ensures { result ≡ booleans_kind op }
{
    match op {
        7..=8 => Some(0),
        13..=14 => Some(0),
        _ => None,
    }
}

// The kind that a dyadic operator gives on operands of two kinds.
pub fn dyadic_kind(op: u16, left: u16, right: u16) -> Option<u16>
    ensures { result ≡ dyadic_kind op left right }
{
    match left {
        0 => match right {
            0 => booleans_kind(op),
            _ => None,
        },
        1 => match right {
            1 => integers_kind(op),
            2 => match op {
                15 => Some(0),
                _ => None,
            },
            _ => None,
        },
        2 => match right {
            2 => sets_kind(op),
            _ => None,
        },
        _ => None,
    }
}

// The kind that a monadic operator gives on an operand of a kind.
pub fn monadic_kind(op: u16, operand: u16) -> Option<u16>
    ensures { result ≡ monadic_kind op operand }
{
    match op {
        1 => match operand {
            1..=2 => Some(operand),
            _ => None,
        },
        2 => match operand {
            0 => Some(0),
            _ => None,
        },
        _ => None,
    }
}
