// What C calls: the check, the run and its continuation, in one library.
#![tactic(auto)]

ghost use Rattle.std.specs.Prelude.{◌≡◌};
ghost use Rattle.checker.specs.Check.{check_of, number_of};
ghost use Rattle.semantics.specs.Running.{result_of, store_after, output_after};
ghost use Rattle.asking.specs.Continuing.{continue_result, continued_store, continued_output};

use checker::Refusal;
use semantics::RunResult;

// Refusal times 65,536 plus row; 0 is acceptance.
#[unsafe(no_mangle)]
pub extern "C" fn door_check(image: &[u8]) -> u32
    ensures { result ≡ number_of (check_of image.now) }
{
    match checker::check(image) {
        Ok(()) => 0,
        Err(Refusal { question, row }) => (question as u32) * 65536 + (row as u32),
    }
}

// The numbers of a run, by value.
#[unsafe(no_mangle)]
pub extern "C" fn door_run(
    image: &[u8],
    input: &[i32],
    store: &mut [i64],
    output: &mut [i32],
    steps: u32,
) -> RunResult
    ensures value { result ≡ result_of image.now input.now store.old output.old
        steps }
    ensures store { store.new ≡ store_after image.now input.now
        store.old output.old steps }
    ensures output { output.new ≡ output_after image.now input.now
        store.old output.old steps }
{
    machine::run(image, input, store, output, steps)
}

// Those of a continuation, from an earlier result that is given by value.
#[unsafe(no_mangle)]
pub extern "C" fn door_continue(
    image: &[u8],
    input: &[i32],
    store: &mut [i64],
    output: &mut [i32],
    steps: u32,
    from: RunResult,
) -> RunResult
    ensures value { result ≡ continue_result image.now input.now store.old
        output.old from steps }
    ensures store { store.new ≡ continued_store image.now input.now
        store.old output.old from steps }
    ensures output { output.new ≡ continued_output image.now input.now
        store.old output.old from steps }
{
    machine::resume(image, input, store, output, steps, from)
}
