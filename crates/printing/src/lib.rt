// Prints what a run gives back.
#![tactic(auto)]

ghost use Rattle.std.specs.Prelude.{◌≡◌, IfOk};

use semantics::RunResult;
use std::fmt::Display;
use std::io;

// Prints the nine numbers of a run in document 01's order, a space between two.
pub fn print_result(rt: &impl Print, x: RunResult) -> io::Result<()>
    ensures { IfOk result (λ x. x ≡ tt) }
{
    print!(rt;
        "{} {} {} {} {} {} {} {} {}",
        x.refusal, x.fault, x.outcome, x.trap, x.halt, x.at.row, x.steps, x.at.read, x.at.written
    )
}

// Prints each number, the bytes `before` in front of it.
pub fn print_each<T: Display>(rt: &impl Print, before: &[u8], numbers: &[T]) -> io::Result<()>
    ensures { IfOk result (λ x. x ≡ tt) }
{
    for number in numbers {
        rt.write_all(before)?;
        print!(rt; "{number}")?;
    }
    Ok(())
}
