// Question 11: the type and variable rules of the statements.
#![tactic(auto)]

ghost use Rattle.std.specs.Prelude.{◌≡◌};
ghost use Rattle.typing.specs.Typing.{type_in};
ghost use Rattle.rules.specs.Rules.{is_type, assignable as is_assignable, assign_rule, form_rule, argument_rule};
ghost use Rattle.rules.specs.Rules.{call_rule, type_rule, halt_rule, rule_by, rules_by, FirstTable, RowsFit};
ghost use Rattle.rules.specs.Rules.{types_in, owned_in};

use image::Row;
use owners::Span;

// Whether a node of type `source` may go where one of type `target` stands.
fn assignable(t: &[u8], source: Option<u16>, target: Option<u16>) -> bool
    ensures { result ≡ is_assignable t.now source target }
{
    let Some(from) = source else {
        return false;
    };
    let Some(to) = target else {
        return false;
    };
    relations::extends(t, from, to)
}

// Whether argument row k may be passed to a parameter of a kind.
fn form_rule(n: &[u8], kind: u8, k: usize) -> bool
    ensures { result ≡ form_rule n.now kind k }
{
    kind != 3 || nodes::is_designator(n, image::row_at(n, k).a as usize)
}

// A body, whose variables stand from `first` on and below `next`, with the types and the spans of all nodes and the
// first variables of all procedures. The question is lent what lives for 'a, and makes what lives for 'b.
#[derive(Clone, Copy)]
struct Body<'a, 'b> {
    t: &'a [u8],
    v: &'a [u8],
    p: &'a [u8],
    n: &'a [u8],
    types: &'a [u16],
    spans: &'b [Span],
    firsts: &'b [u32],
    first: u32,
    next: u32,
}

impl Body<'_, '_> {
    // Whether node k is of type row r.
    fn is_type(&self, k: usize, r: u16) -> bool
        ensures { result ≡ is_type (types_in self.now k) r }
    {
        let Some(found) = typing::type_at(self.types, k) else {
            return false;
        };
        found == r
    }

    // Whether the variables that node k uses are global or the body's own.
    fn is_owned(&self, k: usize) -> bool
        ensures { result ≡ owned_in self.now k }
    {
        owners::is_within(self.spans, self.first, self.next, k)
    }

    fn assign_rule(&self, row: Row) -> bool
        ensures { result ≡ assign_rule self.now.t.now (types_in self.now) (owned_in self.now) row }
    {
        let source = typing::type_at(self.types, row.b as usize);
        let target = typing::type_at(self.types, row.a as usize);
        assignable(self.t, source, target)
            && self.is_owned(row.a as usize)
            && self.is_owned(row.b as usize)
    }

    // Whether argument row k fits parameter row a.
    fn argument_rule(&self, k: usize, a: usize) -> bool
        ensures { result ≡ argument_rule self.now.t.now self.now.v.now self.now.n.now (types_in self.now)
            (owned_in self.now) k a }
    {
        let parameter = image::row_at(self.v, a);
        let source = typing::type_at(self.types, k);
        assignable(self.t, source, Some(parameter.a))
            && form_rule(self.n, parameter.kind, k)
            && self.is_owned(k)
    }

    // What the table holds is asked here and not of each body: the definition names `Body`, whose field it would be.
    fn call_rule(&self, row: Row) -> bool
        requires { FirstTable self.now.v.now self.now.p.now self.now.firsts.now }
        ensures { result ≡ call_rule self.now.t.now self.now.v.now self.now.p.now self.now.n.now (types_in self.now)
            (owned_in self.now) row }
    {
        let called = image::row_at(self.p, row.a as usize);
        let argument = row.b as usize;
        let parameter = sizes::cell(self.firsts, row.a as usize) as usize;
        for j in 0..called.b as usize {
            if !self.argument_rule(argument + j, parameter + j) {
                return false;
            }
        }
        true
    }

    fn type_rule(&self, row: Row, r: u16) -> bool
        ensures { result ≡ type_rule (types_in self.now) (owned_in self.now) row r }
    {
        self.is_type(row.a as usize, r) && self.is_owned(row.a as usize)
    }

    fn halt_rule(&self, row: Row) -> bool
        ensures { result ≡ halt_rule self.now.n.now (types_in self.now) (owned_in self.now) row }
    {
        self.type_rule(row, 1) && image::row_at(self.n, row.a as usize).kind == 0
    }

    // Whether a statement of the body keeps its rules.
    fn rule_by(&self, row: Row) -> bool
        requires { FirstTable self.now.v.now self.now.p.now self.now.firsts.now }
        ensures { result ≡ rule_by self.now.t.now self.now.v.now self.now.p.now self.now.n.now (types_in self.now)
            (owned_in self.now) row.kind row }
    {
        match row.kind {
            0 => self.assign_rule(row),
            1 => self.call_rule(row),
            2 => self.type_rule(row, 0),
            // 5 and 6 apart: joined they would be a range, whose arm says nothing that an answer can cite.
            5 => self.type_rule(row, 1),
            6 => self.type_rule(row, 1),
            7 => self.halt_rule(row),
            _ => true,
        }
    }
}

// Question 11, by a table that holds the type of each node.
pub fn check_rules(
    t: &[u8],
    v: &[u8],
    p: &[u8],
    n: &[u8],
    s: &[u8],
    types: &[u16],
) -> Result<(), u16>
    requires { RowsFit v.now p.now n.now s.now }
    ensures { result ≡ rules_by t.now v.now p.now n.now s.now (type_in types.now) }
{
    let nodes = image::rows_of(n);
    // Zeros, since a check of a small image would take twice the time with 2,048 times `Span::NONE`. The first rows, one
    // for each node, are filled, and no other is read.
    let mut table = [Span { least: 0, past: 0 }; 2048];
    owners::fill_spans(v, n, &mut table);
    let mut firsts = [0u32; 65];
    places::first_variables(v, p, &mut firsts);
    let mut q = 0;
    for r in 0..image::rows_of(s) {
        let body = Body {
            t,
            v,
            p,
            n,
            types,
            spans: &table[..nodes],
            firsts: &firsts,
            first: sizes::cell(&firsts, q),
            next: sizes::cell(&firsts, q + 1),
        };
        let row = image::row_at(s, r);
        if !body.rule_by(row) {
            return Err(r as u16);
        }
        q = statements::next_procedure(p, q, r + 1);
    }
    Ok(())
}
