// Whose variables a node uses: one span of variable rows a node, from the low rows up.
#![tactic(auto)]

ghost use Rattle.std.specs.Prelude.{◌≡◌, ◌≤◌, length};
ghost use Rattle.image.specs.Rows.{rows_of};
ghost use Rattle.owners.specs.Owners.{gather, no_span, variable_span, join_span, span_of, within as lies_within};
ghost use Rattle.owners.specs.Owners.{span_in, Spans};

use image::Row;

// The variables from `least` on and below `past`; none where there are none.
#[derive(Clone, Copy)]
pub struct Span {
    pub least: u16,
    pub past: u16,
}

impl Span {
    // No variables.
    pub const NONE: Span = Span {
        least: 65535,
        past: 0,
    };

    // What lies in the one, in the other, or between them.
    fn join(self, other: Span) -> Span
        ensures { result ≡ join_span self other }
    {
        Span {
            least: self.least.min(other.least),
            past: self.past.max(other.past),
        }
    }
}

fn variable_span(v: &[u8], a: u16) -> Span
    requires { rows_of v.now ≤ 256 }
    ensures { result ≡ variable_span v.now a }
{
    let row = image::row_at(v, a as usize);
    if row.kind == 0 {
        return Span::NONE;
    }
    if a as usize >= image::rows_of(v) {
        return Span {
            least: 0,
            past: 65535,
        };
    }
    Span {
        least: a,
        past: a + 1,
    }
}

// The span of node k in a table of the lower rows' spans.
fn span_at(spans: &[Span], k: usize) -> Span
    ensures { result ≡ span_in spans.now k }
{
    // Not by `get`: docs/DECISIONS.md, D121.
    if k < spans.len() {
        return spans[k];
    }
    Span::NONE
}

fn both_spans(spans: &[Span], a: u16, b: u16) -> Span
    ensures { result ≡ join_span (span_in spans.now a) (span_in spans.now b) }
{
    span_at(spans, a as usize).join(span_at(spans, b as usize))
}

// The span of a node from those of the lower rows.
fn node_span(v: &[u8], spans: &[Span], row: Row) -> Span
    requires { rows_of v.now ≤ 256 }
    ensures { result ≡ gather no_span (variable_span v.now) join_span (span_in spans.now) row.kind row }
{
    match row.kind {
        1 | 4 | 7 => variable_span(v, row.a),
        2 | 6 | 8 => span_at(spans, row.a as usize),
        3 | 5 => both_spans(spans, row.a, row.b),
        _ => Span::NONE,
    }
}

// The spans of all nodes, in a lent table.
pub fn fill_spans(v: &[u8], n: &[u8], spans: &mut [Span])
    requires { (rows_of v.now ≤ 256) × (rows_of n.now ≤ 2048) × (rows_of n.now ≤ length spans.old) }
    ensures { Spans (span_of v.now n.now) (rows_of n.now) spans.old spans.new }
{
    for r in 0..image::rows_of(n) {
        let row = image::row_at(n, r);
        spans[r] = node_span(v, &spans[..r], row);
    }
}

// Whether the span of node k lies among the variables from `first` on and below `next`.
pub fn is_within(spans: &[Span], first: u32, next: u32, k: usize) -> bool
    ensures { result ≡ lies_within first next (span_in spans.now k) }
{
    let span = span_at(spans, k);
    first <= u32::from(span.least) && u32::from(span.past) <= next
}
