// Calls: arguments, and the frame that they are passed in.
#![tactic(auto)]

ghost use Rattle.std.specs.Prelude.{◌≡◌, List, [], ◌∷◌, ℕ, ◌+◌, ◌-◌, ◌≤◌, ◌<◌, ℤ, pos, length, replicate};
ghost use Rattle.image.specs.Rows.{row_at, rows_of};
ghost use Rattle.shapes.specs.Sizes.{size_of};
ghost use Rattle.frames.specs.Procedures.{first_variable};
ghost use Rattle.places.specs.Places.{room_from, frame_size};
ghost use Rattle.semantics.specs.Memory.{bare, overwrite};
ghost use Rattle.semantics.specs.Finding.{find_of, eval_of};
ghost use Rattle.semantics.specs.Stepping.{on_place, on_value, on_part, passed, entered, called};
ghost use Rattle.semantics.specs.Running.{program_of, asked_by};
ghost use Rattle.access.specs.Ready.{Ready};
ghost use Rattle.calling.specs.Showing.{state_of, Stands, Shows};
ghost use Rattle.calling.specs.Passing.{ended_by, framed, passed_one, Roomy, Passes};

use access::Loaded;
use finding::View;
use image::Row;
use semantics::Registers;
use values::{Stop, Trap};

// What a step comes to: the four cases of the definition's `Next`.
#[derive(Clone, Copy)]
pub enum Step {
    Goes(Registers),
    Finished,
    Trapped(Trap, i32),
    Stuck,
}

// ---- a trap in an operand

// Why arguments are not passed ends the step.
pub fn ended_by(x: Result<(), Stop>) -> Step
    ensures { result ≡ ended_by x }
{
    match x {
        Ok(()) => Step::Stuck,
        Err(Stop::Trap(t)) => Step::Trapped(t, 0),
        Err(Stop::Stuck) => Step::Stuck,
    }
}

// ---- arguments

// An object, at a place of the new frame: its address and dynamic type.
fn pass_object(
    loaded: &Loaded,
    store: &mut [i64],
    s: Registers,
    k: u32,
    place: u32,
) -> Result<(), Stop>
    requires { Stands s store.old × (s.top + (place + 2) ≤ length store.old) }
    ensures { (output : List ℤ) → Passes (state_of s store.old output)
        (λ next. on_place (state_of s store.old output)
        (find_of bare (program_of loaded.now.image.now) s.base s.top store.old k)
        (λ object. framed (state_of s store.old output) place next
        (pos object.address ∷ pos object.dynamic ∷ []))) result store.new }
{
    let found = View::new(loaded, store, s).find(k);
    let Ok(object) = found else {
        return finding::lost(found);
    };
    let address = object.address as i64;
    let dynamic = object.dynamic as i64;
    cells::put_pair(&mut store[s.top as usize..], place, address, dynamic);
    Ok(())
}

// A scalar value, at a place of the new frame.
fn pass_value(
    loaded: &Loaded,
    store: &mut [i64],
    s: Registers,
    k: u32,
    place: u32,
) -> Result<(), Stop>
    requires { Stands s store.old × (s.top + (place + 1) ≤ length store.old) }
    ensures { (output : List ℤ) → Passes (state_of s store.old output)
        (λ next. on_value (state_of s store.old output)
        (eval_of bare (program_of loaded.now.image.now) s.base s.top store.old k)
        (λ v. framed (state_of s store.old output) place next (bare.put v ∷ []))) result store.new }
{
    let answer = finding::fresh(View::new(loaded, store, s).eval(k));
    let Ok(value) = answer else {
        return finding::lost(answer);
    };
    let number = values::number_of(value);
    cells::put(&mut store[s.top as usize..], place, number);
    Ok(())
}

// The cells of an object, as one of type row r, at a place of the new frame.
fn pass_cells(
    loaded: &Loaded,
    store: &mut [i64],
    s: Registers,
    k: u32,
    place: u32,
    r: u16,
) -> Result<(), Stop>
    requires { Stands s store.old × (r < rows_of (program_of loaded.now.image.now).types)
        × (s.top + (place + size_of (program_of loaded.now.image.now).types (program_of loaded.now.image.now).fields r)
        ≤ length store.old) }
    ensures { (output : List ℤ) → Passes (state_of s store.old output)
        (λ next. on_place (state_of s store.old output)
        (find_of bare (program_of loaded.now.image.now) s.base s.top store.old k)
        (λ object. on_part (state_of s store.old output) object.address
        (size_of (program_of loaded.now.image.now).types (program_of loaded.now.image.now).fields r)
        (framed (state_of s store.old output) place next))) result store.new }
{
    let found = View::new(loaded, store, s).find(k);
    let Ok(object) = found else {
        return finding::lost(found);
    };
    let size = loaded.size_of(r);
    if s.top < object.address + size {
        return Err(Stop::Stuck);
    }
    cells::copy_above(store, s.top, object.address, place, size);
    Ok(())
}

// One argument: node row k, to variable row a.
fn pass(loaded: &Loaded, store: &mut [i64], s: Registers, k: u32, a: u32) -> Result<(), Stop>
    requires { Stands s store.old × Roomy loaded.now.image.now s.top a store.old }
    ensures { (output : List ℤ) → Passes (state_of s store.old output)
        (passed_one bare (program_of loaded.now.image.now) k a (state_of s store.old output))
        result store.new }
{
    let parameter = loaded.variable_at(a);
    let place = loaded.place_of(a);
    if parameter.kind == 3 {
        return pass_object(loaded, store, s, k, place);
    }
    if loaded.is_single(parameter.a) {
        return pass_value(loaded, store, s, k, place);
    }
    pass_cells(loaded, store, s, k, place, parameter.a)
}

// n arguments from node row k on, to the variables from row a on.
fn pass_all(
    loaded: &Loaded,
    store: &mut [i64],
    s: Registers,
    k: u32,
    a: u32,
    n: u32,
) -> Result<(), Stop>
    requires { Stands s store.old × (k ≤ 65536) × (a ≤ 65536) × (n ≤ 65536)
        × ((j : ℕ) → j < n → Roomy loaded.now.image.now s.top (a + j) store.old) }
    ensures { (output : List ℤ) → Passes (state_of s store.old output)
        (passed bare (program_of loaded.now.image.now) k a n (state_of s store.old output))
        result store.new }
{
    for j in 0..n {
        let one = pass(loaded, store, s, k + j, a + j);
        let Ok(()) = one else {
            return one;
        };
    }
    Ok(())
}

// ---- the frame

// In a new frame: zero in the locals, then the three links.
fn write_frame(frame: &mut [i64], past: u32, size: u32, caller: u32, back: u32, base: u32)
    requires { (3 ≤ past) × (past ≤ size) × (size ≤ length frame.old) }
    ensures { frame.new
        ≡ overwrite (overwrite frame.old past (replicate (size - past) (pos 0))) 0
        (pos caller ∷ pos back ∷ pos base ∷ []) }
{
    cells::zero(frame, past, size - past);
    frame[0] = caller as i64;
    frame[1] = back as i64;
    frame[2] = base as i64;
}

// Where the locals of procedure q begin in its frame.
fn locals_place(loaded: &Loaded, q: u16) -> u32
    requires { q < rows_of (program_of loaded.now.image.now).procedures }
    ensures { result ≡ 3 + room_from (program_of loaded.now.image.now).types
        (program_of loaded.now.image.now).fields (program_of loaded.now.image.now).variables
        (first_variable (program_of loaded.now.image.now).variables
        (program_of loaded.now.image.now).procedures q)
        (row_at (program_of loaded.now.image.now).procedures q).b }
{
    let procedure = loaded.procedure_at(q);
    if procedure.c == 0 {
        return loaded.frame_size(q);
    }
    loaded.place_of(loaded.first_variable(q) + procedure.b as u32)
}

// The top that a call of procedure q asks for.
fn new_top(loaded: &Loaded, top: u32, q: u16) -> u32
    requires { (top ≤ 65536) × (q < rows_of (program_of loaded.now.image.now).procedures) }
    ensures { result ≡ top + frame_size (program_of loaded.now.image.now).types
        (program_of loaded.now.image.now).fields (program_of loaded.now.image.now).variables
        (program_of loaded.now.image.now).procedures q }
{
    top + loaded.frame_size(q)
}

// The call of procedure q, whose arguments are passed.
fn enter(loaded: &Loaded, store: &mut [i64], s: Registers, q: u16) -> Step
    requires { Stands s store.old × (q < rows_of (program_of loaded.now.image.now).procedures)
        × (s.row < rows_of (program_of loaded.now.image.now).statements)
        × (s.top + frame_size (program_of loaded.now.image.now).types (program_of loaded.now.image.now).fields
        (program_of loaded.now.image.now).variables (program_of loaded.now.image.now).procedures q ≤ length store.old)
        × Ready loaded.now.image.now loaded.now.plan.now }
    ensures { (output : List ℤ) → Shows (state_of s store.old output)
        (entered bare (program_of loaded.now.image.now) q
        (row_at (program_of loaded.now.image.now).procedures q) (state_of s store.old output))
        result store.new output }
{
    let procedure = loaded.procedure_at(q);
    let size = loaded.frame_size(q);
    let past = locals_place(loaded, q);
    let caller = loaded.procedure_of(s.row);
    let frame = &mut store[s.top as usize..];
    write_frame(frame, past, size, caller, s.row + 1, s.base);
    Step::Goes(Registers {
        row: procedure.a as u32,
        base: s.top,
        top: s.top + size,
        read: s.read,
        written: s.written,
    })
}

// The top that the step from s asks for, in a store of so many cells: a call's that passes the store check, else 0.
pub fn asked(loaded: &Loaded, cells: usize, s: Registers) -> u32
    requires { s.top ≤ 65536 }
    ensures { result ≡ asked_by (program_of loaded.now.image.now) s cells }
{
    let statement = loaded.statement_at(s.row);
    if statement.kind != 1 {
        return 0;
    }
    let end = new_top(loaded, s.top, statement.a);
    if cells < end as usize {
        return 0;
    }
    end
}

// Statement kind 1: the store check first, then the arguments, then the frame.
pub fn call(loaded: &Loaded, store: &mut [i64], s: Registers, statement: Row) -> Step
    requires { Stands s store.old × (statement.a < rows_of (program_of loaded.now.image.now).procedures)
        × (s.row < rows_of (program_of loaded.now.image.now).statements)
        × Ready loaded.now.image.now loaded.now.plan.now }
    ensures { (output : List ℤ) → Shows (state_of s store.old output)
        (called bare (program_of loaded.now.image.now) statement (state_of s store.old output))
        result store.new output }
{
    let q = statement.a;
    let end = new_top(loaded, s.top, q);
    if store.len() < end as usize {
        return Step::Trapped(Trap::Frame, 0);
    }
    let procedure = loaded.procedure_at(q);
    let first = loaded.first_variable(q);
    let passing = pass_all(
        loaded,
        store,
        s,
        statement.b as u32,
        first,
        procedure.b as u32,
    );
    let Ok(()) = passing else {
        return ended_by(passing);
    };
    enter(loaded, store, s, q)
}
