// The run and the continuation: the check, the fresh state or an earlier one, and steps until the last.
#![tactic(auto)]

ghost use Rattle.std.specs.Prelude.{◌≡◌, ◌+◌, ◌≤◌, max};
ghost use Rattle.prelude.specs.Choice.{choose};
ghost use Rattle.checker.specs.Check.{refusal_of, row_of};
ghost use Rattle.semantics.specs.Memory.{bare};
ghost use Rattle.semantics.specs.Running.{program_of, first_top, run_from, refused_with, result_of, store_after};
ghost use Rattle.semantics.specs.Running.{output_after};
ghost use Rattle.access.specs.Ready.{Ready};
ghost use Rattle.calling.specs.Showing.{state_of, Stands};
ghost use Rattle.asking.specs.Continuing.{continue_result, continued_store, continued_output};
ghost use Rattle.machine.specs.Stopping.{ended_with, stop_by, Stops, store_question};

use access::Loaded;
use calling::Step;
use checker::Refusal;
use semantics::{Registers, RunResult};
use sizes::RUN_PLAN;

// The numbers of a run that was not refused.
fn ended(outcome: u32, trap: u32, halt: i32, steps: u32, at: Registers, mark: u32) -> RunResult
    ensures { result ≡ ended_with outcome trap halt steps at mark }
{
    RunResult {
        refusal: 0,
        fault: 0,
        outcome,
        trap,
        halt,
        steps,
        at,
        mark,
    }
}

// A step that was the last, from s, as the k-th, with the mark behind it.
fn stop_by(x: Step, s: Registers, k: u32, mark: u32) -> RunResult
    ensures { result ≡ stop_by x s k mark }
{
    match x {
        Step::Finished => ended(1, 0, 0, k, s, mark),
        Step::Trapped(t, z) => ended(2, values::trap_number(t) as u32, z, k, s, mark),
        _ => ended(3, 0, 0, k, s, mark),
    }
}

// At most n steps more from any state, where `done` were done before and the mark was `first`. A step that goes on
// leaves the top that it asked for, or one no higher than before, so that only the last step is asked. Top is read from
// s: read from q, it costs five instructions a step more.
pub fn advance(
    loaded: &Loaded,
    input: &[i32],
    store: &mut [i64],
    output: &mut [i32],
    from: Registers,
    done: u32,
    first: u32,
    n: u32,
) -> RunResult
    requires { Stands from store.old × (from.top ≤ first) × (done + n ≤ 4294967295)
        × Ready loaded.now.image.now loaded.now.plan.now }
    ensures { Stops (run_from bare (program_of loaded.now.image.now) input.now n done first
        (state_of from store.old output.old)) result store.new output.new }
{
    let end = done + n;
    let mut s = from;
    let mut mark = first;
    for k in done..end {
        let next = stepping::step(loaded, input, store, output, s);
        let Step::Goes(q) = next else {
            let asked = calling::asked(loaded, store.len(), s);
            return stop_by(next, s, k + 1, mark.max(asked));
        };
        s = q;
        mark = mark.max(s.top);
    }
    ended(0, 0, 0, end, s, mark)
}

// ---- the run

fn refused(question: u32, row: u32) -> RunResult
    ensures { result ≡ refused_with question row }
{
    RunResult {
        refusal: question,
        fault: row,
        outcome: 0,
        trap: 0,
        halt: 0,
        steps: 0,
        at: Registers {
            row: 0,
            base: 0,
            top: 0,
            read: 0,
            written: 0,
        },
        mark: 0,
    }
}

// An answer of the check that is a refusal.
fn refused_by(answer: Result<(), Refusal>) -> RunResult
    ensures { result ≡ refused_with (refusal_of answer) (row_of answer) }
{
    match answer {
        Ok(()) => refused(0, 0),
        Err(Refusal { question, row }) => refused(question as u32, row as u32),
    }
}

// G + F0: how many cells the globals and procedure 0's frame have.
fn first_top(loaded: &Loaded) -> u32
    ensures { result ≡ first_top (program_of loaded.now.image.now) }
{
    loaded.global_room() + loaded.frame_size(0)
}

// 12 or 13, where a store of so many cells is too large or too small, else 0, as C has it in `refusal`.
fn store_question(loaded: &Loaded, cells: usize) -> u32
    ensures { result ≡ store_question (program_of loaded.now.image.now) cells }
{
    if 65536 < cells {
        return 12;
    }
    if cells < first_top(loaded) as usize {
        return 13;
    }
    0
}

// Checks an image and runs it from the fresh state, with at most `steps` steps. (`resume` begins alike: a function for
// both would hand out references to a plan that it made.)
pub fn run(
    image: &[u8],
    input: &[i32],
    store: &mut [i64],
    output: &mut [i32],
    steps: u32,
) -> RunResult
    ensures value { result ≡ result_of image.now input.now store.old output.old
        steps }
    ensures store { store.new ≡ store_after image.now input.now
        store.old output.old steps }
    ensures output { output.new ≡ output_after image.now input.now
        store.old output.old steps }
{
    let mut plan = [0u32; RUN_PLAN];
    let answer = access::open_image(image, &mut plan);
    let Ok(()) = answer else {
        return refused_by(answer);
    };
    let loaded = Loaded { image, plan: &plan };
    let question = store_question(&loaded, store.len());
    if question != 0 {
        return refused(question, 0);
    }
    let top = first_top(&loaded);
    cells::zero(store, 0, top);
    let first = Registers {
        row: 0,
        base: loaded.global_room(),
        top,
        read: 0,
        written: 0,
    };
    advance(&loaded, input, store, output, first, 0, top, steps)
}

// ---- the continuation

// A continuation of no steps: where question 14 passes, the earlier result as it was.
fn kept(passes: bool, from: RunResult) -> RunResult
    ensures { result ≡ choose passes from (refused_with 14 0) }
{
    if passes {
        return from;
    }
    refused(14, 0)
}

// Checks an image and goes on from an earlier result and the store that it left, with at most `steps` steps more. That
// question 14 is asked at two places leaves it a function, whose tables are given back before the first step:
// docs/DECISIONS.md.
pub fn resume(
    image: &[u8],
    input: &[i32],
    store: &mut [i64],
    output: &mut [i32],
    steps: u32,
    from: RunResult,
) -> RunResult
    ensures value { result ≡ continue_result image.now input.now store.old
        output.old from steps }
    ensures store { store.new ≡ continued_store image.now input.now
        store.old output.old from steps }
    ensures output { output.new ≡ continued_output image.now input.now
        store.old output.old from steps }
{
    let mut plan = [0u32; RUN_PLAN];
    let answer = access::open_image(image, &mut plan);
    let Ok(()) = answer else {
        return refused_by(answer);
    };
    let loaded = Loaded { image, plan: &plan };
    let question = store_question(&loaded, store.len());
    if question != 0 {
        return refused(question, 0);
    }
    if steps == 0 {
        let passes = resuming::continuable(&loaded, input, store, output, from, 0);
        return kept(passes, from);
    }
    if !resuming::continuable(&loaded, input, store, output, from, steps) {
        return refused(14, 0);
    }
    advance(
        &loaded, input, store, output, from.at, from.steps, from.mark, steps,
    )
}
