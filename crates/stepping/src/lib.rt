// One step: the eight statements. An operand's answer is taken apart by `let .. else`, which hands a trap on: document
// 01's list of forms.
#![tactic(auto)]

ghost use Rattle.std.specs.Prelude.{◌≡◌, List, [], ◌∷◌, ◌<◌, ℤ};
ghost use Rattle.image.specs.Rows.{rows_of};
ghost use Rattle.semantics.specs.Memory.{bare};
ghost use Rattle.semantics.specs.Stepping.{written as written_to, other_record, copied, assigned, jumped};
ghost use Rattle.semantics.specs.Stepping.{returned, received, sent, halted, step_of};
ghost use Rattle.semantics.specs.Running.{program_of};
ghost use Rattle.finding.specs.Within.{Within};
ghost use Rattle.access.specs.Ready.{Ready};
ghost use Rattle.calling.specs.Showing.{state_of, Stands, Shows};
ghost use Rattle.stepping.specs.Counting.{at_row};

use access::Loaded;
use calling::Step;
use finding::View;
use image::Row;
use semantics::{Place, Registers};
use values::{Trap, Value};

// The same numbers at another row.
fn at_row(s: Registers, row: u32) -> Registers
    ensures { result ≡ at_row s row }
{
    Registers { row, ..s }
}

// Writes one cell at an address below top, and goes on.
fn write_cell(store: &mut [i64], s: Registers, address: u32, z: i64) -> Step
    requires { Stands s store.old × (s.row < 65536) }
    ensures { (output : List ℤ) → Shows (state_of s store.old output)
        (written_to (state_of s store.old output) address (z ∷ [])) result store.new output }
{
    if s.top <= address {
        return Step::Stuck;
    }
    cells::put(store, address, z);
    Step::Goes(at_row(s, s.row + 1))
}

// ---- statement kind 0

// Whether a target is a record of another dynamic type than the declared one.
fn other_record(loaded: &Loaded, target: Place) -> bool
    ensures { result ≡ other_record (program_of loaded.now.image.now) target }
{
    loaded.type_at(target.declared).kind == 4 && target.dynamic != target.declared
}

// The target type's cells, from the source to the target.
fn copy_object(
    loaded: &Loaded,
    store: &mut [i64],
    s: Registers,
    target: Place,
    source: Place,
) -> Step
    requires { Stands s store.old × (s.row < 65536)
        × Within loaded.now.image.now target × Within loaded.now.image.now source }
    ensures { (output : List ℤ) → Shows (state_of s store.old output)
        (copied bare (program_of loaded.now.image.now) (state_of s store.old output) target source)
        result store.new output }
{
    if other_record(loaded, target) {
        return Step::Trapped(Trap::Target, 0);
    }
    let size = loaded.size_of(target.declared);
    if s.top < source.address + size {
        return Step::Stuck;
    }
    if s.top < target.address + size {
        return Step::Stuck;
    }
    cells::copy(store, source.address, target.address, size);
    Step::Goes(at_row(s, s.row + 1))
}

fn assign(loaded: &Loaded, store: &mut [i64], s: Registers, statement: Row) -> Step
    requires { Stands s store.old × (s.row < 65536) }
    ensures { (output : List ℤ) → Shows (state_of s store.old output)
        (assigned bare (program_of loaded.now.image.now) (state_of s store.old output) statement)
        result store.new output }
{
    let view = View::new(loaded, store, s);
    let found = view.locate(statement.a as u32);
    let Ok(target) = found else {
        return calling::ended_by(finding::lost(found));
    };
    if loaded.is_single(target.declared) {
        let answer = finding::fresh(view.eval(statement.b as u32));
        let Ok(value) = answer else {
            return calling::ended_by(finding::lost(answer));
        };
        return write_cell(store, s, target.address, values::number_of(value));
    }
    let origin = finding::fresh(view.find(statement.b as u32));
    let Ok(source) = origin else {
        return calling::ended_by(finding::lost(origin));
    };
    copy_object(loaded, store, s, target, source)
}

// ---- statement kinds 2 and 4

fn jump(loaded: &Loaded, store: &[i64], s: Registers, statement: Row) -> Step
    requires { Stands s store.now × (s.row < 65536) }
    ensures { (output : List ℤ) → Shows (state_of s store.now output)
        (jumped bare (program_of loaded.now.image.now) statement (state_of s store.now output))
        result store.now output }
{
    let answer = View::new(loaded, store, s).eval(statement.a as u32);
    let Ok(value) = answer else {
        return calling::ended_by(finding::lost(answer));
    };
    let Value::Bool(holds) = value else {
        return Step::Stuck;
    };
    if holds {
        return Step::Goes(at_row(s, s.row + 1));
    }
    Step::Goes(at_row(s, statement.b as u32))
}

fn give_back(loaded: &Loaded, store: &[i64], s: Registers) -> Step
    requires { Stands s store.now × (s.row < rows_of (program_of loaded.now.image.now).statements)
        × Ready loaded.now.image.now loaded.now.plan.now }
    ensures { (output : List ℤ) → Shows (state_of s store.now output)
        (returned bare (program_of loaded.now.image.now) (state_of s store.now output))
        result store.now output }
{
    let procedure = loaded.procedure_of(s.row);
    if procedure == 0 {
        return Step::Finished;
    }
    let Some(back) = cells::mark_at(store, s.top, s.base + 1) else {
        return Step::Stuck;
    };
    let Some(older) = cells::mark_at(store, s.top, s.base + 2) else {
        return Step::Stuck;
    };
    Step::Goes(Registers {
        row: back as u32,
        base: older as u32,
        top: s.base,
        read: s.read,
        written: s.written,
    })
}

// ---- statement kinds 5 to 7

fn receive(loaded: &Loaded, input: &[i32], store: &mut [i64], s: Registers, statement: Row) -> Step
    requires { Stands s store.old × (s.row < 65536) }
    ensures { (output : List ℤ) → Shows (state_of s store.old output)
        (received bare (program_of loaded.now.image.now) input.now statement
        (state_of s store.old output)) result store.new output }
{
    let found = View::new(loaded, store, s).find(statement.a as u32);
    let Ok(target) = found else {
        return calling::ended_by(finding::lost(found));
    };
    if input.len() <= s.read as usize {
        return Step::Trapped(Trap::Input, 0);
    }
    if s.top <= target.address {
        return Step::Stuck;
    }
    cells::put(store, target.address, input[s.read as usize] as i64);
    Step::Goes(Registers {
        row: s.row + 1,
        base: s.base,
        top: s.top,
        read: s.read + 1,
        written: s.written,
    })
}

fn send(loaded: &Loaded, store: &[i64], output: &mut [i32], s: Registers, statement: Row) -> Step
    requires { Stands s store.now × (s.row < 65536) }
    ensures { Shows (state_of s store.now output.old)
        (sent bare (program_of loaded.now.image.now) statement
        (state_of s store.now output.old)) result store.now output.new }
{
    let answer = View::new(loaded, store, s).eval(statement.a as u32);
    let Ok(value) = answer else {
        return calling::ended_by(finding::lost(answer));
    };
    let Value::Int(number) = value else {
        return Step::Stuck;
    };
    if output.len() <= s.written as usize {
        return Step::Trapped(Trap::Output, 0);
    }
    output[s.written as usize] = number;
    Step::Goes(Registers {
        row: s.row + 1,
        base: s.base,
        top: s.top,
        read: s.read,
        written: s.written + 1,
    })
}

fn halt(loaded: &Loaded, store: &[i64], s: Registers, statement: Row) -> Step
    requires { Stands s store.now }
    ensures { (output : List ℤ) → Shows (state_of s store.now output)
        (halted bare (program_of loaded.now.image.now) statement (state_of s store.now output))
        result store.now output }
{
    let answer = View::new(loaded, store, s).eval(statement.a as u32);
    let Ok(value) = answer else {
        return calling::ended_by(finding::lost(answer));
    };
    let Value::Int(number) = value else {
        return Step::Stuck;
    };
    Step::Trapped(Trap::Halt, number)
}

// ---- by the kind

pub fn step(
    loaded: &Loaded,
    input: &[i32],
    store: &mut [i64],
    output: &mut [i32],
    s: Registers,
) -> Step
    requires { Stands s store.old × Ready loaded.now.image.now loaded.now.plan.now }
    ensures { Shows (state_of s store.old output.old)
        (step_of bare (program_of loaded.now.image.now) input.now
        (state_of s store.old output.old)) result store.new output.new }
{
    let statement = loaded.statement_at(s.row);
    match statement.kind {
        0 => assign(loaded, store, s, statement),
        1 => calling::call(loaded, store, s, statement),
        2 => jump(loaded, store, s, statement),
        3 => Step::Goes(at_row(s, statement.b as u32)),
        4 => give_back(loaded, store, s),
        5 => receive(loaded, input, store, s, statement),
        6 => send(loaded, store, output, s, statement),
        7 => halt(loaded, store, s, statement),
        _ => Step::Stuck,
    }
}
