// Finding a designator and evaluating an expression.
#![tactic(auto)]

ghost use Rattle.std.specs.Prelude.{◌≡◌, ◌+◌, ◌≤◌, ◌<◌, length};
ghost use Rattle.image.specs.Rows.{row_at, rows_of};
ghost use Rattle.shapes.specs.Forms.{kind_in};
ghost use Rattle.relations.specs.Fields.{field_of};
ghost use Rattle.semantics.specs.Memory.{bare, value_at};
ghost use Rattle.semantics.specs.Finding.{reach, content, object, parameter_place, variable_place, field_place};
ghost use Rattle.semantics.specs.Finding.{element_place, array_place, guard_place, test_of, find_of, eval_of};
ghost use Rattle.semantics.specs.Running.{program_of};
ghost use Rattle.finding.specs.Within.{Within};
ghost use Rattle.finding.specs.Missed.{lost};

use access::Loaded;
use image::Row;
use relations::FieldAt;
use semantics::{Place, Registers};
use values::{Stop, Trap, Value};

// ---- answers of calls

// A call leaves its answer in memory, piece by piece, and a copy of the whole would wait for the pieces. Handed through
// this one, it is copied piece by piece.

pub fn fresh<T: Copy>(x: Result<T, Stop>) -> Result<T, Stop>
    ensures { result ≡ x }
{
    x
}

// ---- a trap in an operand: by document 01's list of forms `let .. else` takes an answer apart, and hands the trap on

// Why there is no value or object, where another type was sought.
pub fn lost<T: Copy, U>(x: Result<T, Stop>) -> Result<U, Stop>
    ensures { result ≡ lost x }
{
    match x {
        Ok(_) => Err(Stop::Stuck),
        Err(stop) => Err(stop),
    }
}

// ---- designators

// An object of type row r at an address: its dynamic type is the declared one.
fn plain(address: u32, r: u16) -> Result<Place, Stop>
    ensures { result ≡ object address r }
{
    Ok(Place {
        address,
        declared: r,
        dynamic: r,
    })
}

// Node kind 2: the field that node row k names, of an object.
fn field_place(loaded: &Loaded, whole: Place, k: u32) -> Result<Place, Stop>
    requires { Within loaded.now.image.now whole
        × ((row_at (program_of loaded.now.image.now).nodes k).kind ≡ 2) }
    ensures { result ≡ field_place whole (field_of (program_of loaded.now.image.now).types
        (program_of loaded.now.image.now).fields whole.declared
        (row_at (program_of loaded.now.image.now).nodes k).b) }
{
    let Some(FieldAt { offset, declared }) = loaded.field(k, whole.declared) else {
        return Err(Stop::Stuck);
    };
    plain(whole.address + offset, declared)
}

// Node kind 3: the element at an index of an object whose type row is `array`.
fn element_place(loaded: &Loaded, whole: Place, array: Row, index: i32) -> Result<Place, Stop>
    requires { Within loaded.now.image.now whole
        × (array ≡ row_at (program_of loaded.now.image.now).types whole.declared) × (array.kind ≡ 3) }
    ensures { result ≡ element_place (program_of loaded.now.image.now) whole array index }
{
    if index < 0 {
        return Err(Stop::Trap(Trap::Index));
    }
    let i = index as u32;
    if array.b as u32 <= i {
        return Err(Stop::Trap(Trap::Index));
    }
    let size = loaded.size_of(array.a);
    plain(whole.address + i * size, array.a)
}

// Node kind 4: an object guarded by type row b.
fn guard_place(loaded: &Loaded, place: Place, b: u16) -> Result<Place, Stop>
    ensures { result ≡ guard_place (program_of loaded.now.image.now) b place }
{
    if loaded.extends(place.dynamic, b) {
        return Ok(Place {
            declared: b,
            ..place
        });
    }
    Err(Stop::Trap(Trap::Guard))
}

// Node kind 7: whether an object's dynamic type extends type row b.
fn type_test(loaded: &Loaded, place: Place, b: u16) -> Result<Value, Stop>
    ensures { result ≡ test_of (program_of loaded.now.image.now) b place }
{
    Ok(Value::Bool(loaded.extends(place.dynamic, b)))
}

// ---- what a statement sees

// An accepted image, the store, and where the newest frame begins and ends.
#[derive(Clone, Copy)]
pub struct View<'a, 'b> {
    pub loaded: Loaded<'a>,
    pub store: &'b [i64],
    pub base: u32,
    pub top: u32,
    pub ghost low: { base ≤ 65536 },
    pub ghost stored: { top ≤ length store.now },
}

impl<'a, 'b> View<'a, 'b> {
    // What the statement at s sees.
    pub fn new(loaded: &Loaded<'a>, store: &'b [i64], s: Registers) -> Self
        requires { (s.base ≤ 65536) × (s.top ≤ length store.now) }
        ensures { (result.loaded ≡ loaded.now) × (result.store.now ≡ store.now)
            × (result.base ≡ s.base) × (result.top ≡ s.top) }
    {
        View {
            loaded: *loaded,
            store,
            base: s.base,
            top: s.top,
        }
    }

    // The value of an object. A scalar's type row is its kind, and no other row is the kind of a value.
    fn load(&self, place: Place) -> Result<Value, Stop>
        requires { place.declared < rows_of (program_of self.now.loaded.image.now).types }
        ensures { result ≡ value_at bare self.now.top self.now.store.now
            (kind_in (program_of self.now.loaded.image.now).types place.declared) place.address }
    {
        cells::value_at(self.store, self.top, place.declared, place.address)
    }

    // The object of a VAR parameter of type row r, whose two cells begin at `at`.
    fn parameter_place(&self, at: u32, r: u16) -> Result<Place, Stop>
        requires { at < 4294967295 }
        ensures { result ≡ parameter_place bare self.now.top self.now.store.now at r }
    {
        let Some(address) = cells::mark_at(self.store, self.top, at) else {
            return Err(Stop::Stuck);
        };
        let Some(dynamic) = cells::mark_at(self.store, self.top, at + 1) else {
            return Err(Stop::Stuck);
        };
        Ok(Place {
            address: address as u32,
            declared: r,
            dynamic,
        })
    }

    // Node kind 1: variable row a. The compiler inlines it of itself for some processors; on the others a node of an
    // expression takes less stack with it too (docs/FIRMWARE.md).
    #[inline(always)]
    fn variable_place(&self, a: u16) -> Result<Place, Stop>
        ensures { result ≡ variable_place bare (program_of self.now.loaded.image.now)
            self.now.base self.now.top self.now.store.now a
            (row_at (program_of self.now.loaded.image.now).variables a) }
    {
        let row = self.loaded.variable_at(a as u32);
        if 3 < row.kind {
            return Err(Stop::Stuck);
        }
        let place = self.loaded.place_of(a as u32);
        if row.kind == 0 {
            return plain(place, row.a);
        }
        let at = self.base + place;
        if row.kind < 3 {
            return plain(at, row.a);
        }
        self.parameter_place(at, row.a)
    }

    // ---- nodes

    // The object that node row r designates.
    #[cycle(eval_find)]
    pub fn find(&self, r: u32) -> Result<Place, Stop>
        ensures { result ≡ find_of bare (program_of self.now.loaded.image.now)
            self.now.base self.now.top self.now.store.now r }
    {
        let node = self.loaded.node_at(r);
        let first = node.a as u32;
        let second = node.b as u32;
        match node.kind {
            1 => self.variable_place(node.a),
            2 => {
                if r <= first {
                    return Err(Stop::Stuck);
                }
                let whole = fresh(self.find(first));
                let Ok(owner) = whole else {
                    return whole;
                };
                fresh(field_place(&self.loaded, owner, r))
            }
            3 => {
                if r <= first {
                    return Err(Stop::Stuck);
                }
                let list = fresh(self.find(first));
                let Ok(array) = list else {
                    return list;
                };
                let row = self.loaded.type_at(array.declared);
                if row.kind != 3 {
                    return Err(Stop::Stuck);
                }
                if r <= second {
                    return Err(Stop::Stuck);
                }
                let index = fresh(self.eval(second));
                let Ok(value) = index else {
                    return lost(index);
                };
                let Value::Int(i) = value else {
                    return Err(Stop::Stuck);
                };
                fresh(element_place(&self.loaded, array, row, i))
            }
            4 => {
                let guarded = self.variable_place(node.a);
                let Ok(object) = guarded else {
                    return guarded;
                };
                guard_place(&self.loaded, object, node.b)
            }
            8 => {
                if r <= first {
                    return Err(Stop::Stuck);
                }
                fresh(self.find(first))
            }
            _ => Err(Stop::Stuck),
        }
    }

    // The value of node row r. Arms 2 to 4 find their object here: a call of `find` on the same row would not fall.
    #[cycle(eval_find)]
    pub fn eval(&self, r: u32) -> Result<Value, Stop>
        ensures { result ≡ eval_of bare (program_of self.now.loaded.image.now)
            self.now.base self.now.top self.now.store.now r }
    {
        let node = self.loaded.node_at(r);
        let first = node.a as u32;
        let second = node.b as u32;
        match node.kind {
            0 => values::constant(node.a, node.b, node.c),
            1 => {
                let variable = self.variable_place(node.a);
                let Ok(object) = variable else {
                    return lost(variable);
                };
                fresh(self.load(object))
            }
            2 => {
                if r <= first {
                    return Err(Stop::Stuck);
                }
                let whole = fresh(self.find(first));
                let Ok(owner) = whole else {
                    return lost(whole);
                };
                let part = fresh(field_place(&self.loaded, owner, r));
                let Ok(object) = part else {
                    return lost(part);
                };
                fresh(self.load(object))
            }
            3 => {
                if r <= first {
                    return Err(Stop::Stuck);
                }
                let list = fresh(self.find(first));
                let Ok(array) = list else {
                    return lost(list);
                };
                let row = self.loaded.type_at(array.declared);
                if row.kind != 3 {
                    return Err(Stop::Stuck);
                }
                if r <= second {
                    return Err(Stop::Stuck);
                }
                let index = fresh(self.eval(second));
                let Ok(value) = index else {
                    return index;
                };
                let Value::Int(i) = value else {
                    return Err(Stop::Stuck);
                };
                let element = fresh(element_place(&self.loaded, array, row, i));
                let Ok(object) = element else {
                    return lost(element);
                };
                fresh(self.load(object))
            }
            4 => {
                let guarded = self.variable_place(node.a);
                let Ok(whole) = guarded else {
                    return lost(guarded);
                };
                let narrowed = guard_place(&self.loaded, whole, node.b);
                let Ok(object) = narrowed else {
                    return lost(narrowed);
                };
                fresh(self.load(object))
            }
            5 => {
                if r <= first {
                    return Err(Stop::Stuck);
                }
                let left = fresh(self.eval(first));
                let Ok(x) = left else {
                    return left;
                };
                if operators::decides(node.c, x) {
                    return left;
                }
                if r <= second {
                    return Err(Stop::Stuck);
                }
                let right = fresh(self.eval(second));
                let Ok(y) = right else {
                    return right;
                };
                match x {
                    Value::Bool(p) => {
                        let Value::Bool(q) = y else {
                            return Err(Stop::Stuck);
                        };
                        operators::booleans(node.c, p, q)
                    }
                    Value::Int(i) => match y {
                        Value::Bool(_) => Err(Stop::Stuck),
                        Value::Int(j) => operators::integers(node.c, i, j),
                        Value::Set(u) => operators::membership(node.c, i, u),
                    },
                    Value::Set(s) => {
                        let Value::Set(t) = y else {
                            return Err(Stop::Stuck);
                        };
                        operators::sets(node.c, s, t)
                    }
                }
            }
            // one call serves both: the answer of each call has a place of its own in the frame
            6 | 8 => {
                if r <= first {
                    return Err(Stop::Stuck);
                }
                let operand = fresh(self.eval(first));
                if node.kind == 8 {
                    return operand;
                }
                let Ok(z) = operand else {
                    return operand;
                };
                fresh(operators::monadic(node.c, z))
            }
            7 => {
                let tested = self.variable_place(node.a);
                let Ok(object) = tested else {
                    return lost(tested);
                };
                type_test(&self.loaded, object, node.b)
            }
            _ => Err(Stop::Stuck),
        }
    }

    // The same as find, where most objects are variables: such a one takes no call.
    pub fn locate(&self, r: u32) -> Result<Place, Stop>
        ensures { result ≡ find_of bare (program_of self.now.loaded.image.now)
            self.now.base self.now.top self.now.store.now r }
    {
        let node = self.loaded.node_at(r);
        if node.kind == 1 {
            return self.variable_place(node.a);
        }
        fresh(self.find(r))
    }
}
