// The levels: each forms the denominator of the next one at half the order, and its result from the result of the next one.
#![tactic(auto)]

ghost use Rattle.std.specs.Prelude.{◌≡◌, ◌<◌, ◌≤◌};
ghost use Rattle.definition.specs.Refusal.{limit};
ghost use Rattle.definition.specs.Weight.{degree_bound};
ghost use Rattle.levels.specs.Graeffe.{Expanded, Graeffe, Parts};
ghost use Rattle.levels.specs.Level.{LevelLent, Levelled};
ghost use Rattle.levels.specs.Layout.{Bounded, layout_of};

use product::{Rows, Weight};

// The bound on the degree of Q in y one level down: q doubled, up to m - 1.
fn degree_bound(m: usize, q: usize) -> usize
    requires { (q < m) × (m ≤ limit) }
    ensures { result ≡ degree_bound m q }
{
    number::smaller(2 * q, m - 1)
}

// The parts of a level. One after the other stand Q, from place 0 on, the result, Q(-x, y) in as many rows as Q, the rows of a product, and
// the rest, lent to the next level.
#[derive(Clone, Copy)]
pub struct Layout {
    // ⌈r/2⌉, and q and d one level down
    pub half: usize,
    pub next: usize,
    pub low: usize,
    // the first power of y that is kept of the second product
    pub window: usize,
    pub result: Rows,
    pub opposite: Rows,
    pub product: Rows,
    pub rest: usize,
    // the result of the next level
    pub below: Rows,
}

// The parts of a level with order r and bounds q and d, for m places of f.
fn arrange(r: usize, q: usize, d: usize, m: usize) -> Layout
    requires { Bounded r q d m }
    ensures { result ≡ layout_of r q d m }
{
    let half = (r + 1) / 2;
    let next = degree_bound(m, q);
    let low = number::excess(d, q);
    let count = q + 1;
    let next_count = next + 1;
    let kept = m - d;
    let result = count * r;
    let opposite = result + kept * r;
    let product = opposite + count * r;
    let rest = product + next_count * r;
    let below = rest + next_count * half;
    Layout {
        half,
        next,
        low,
        window: d - low,
        result: Rows {
            at: result,
            count: kept,
        },
        opposite: Rows {
            at: opposite,
            count,
        },
        product: Rows {
            at: product,
            count: next_count,
        },
        rest,
        below: Rows {
            at: below,
            count: m - low,
        },
    }
}

// The denominator of the next level, at the start of the rest: the even part of Q(x, y) Q(-x, y).
fn graeffe(p: u32, r: usize, w: &mut [u32], s: Layout) -> Weight
    requires { Parts p r s w.old }
    ensures { Graeffe p r s w.old w.new result.places }
{
    let b = s.opposite;
    let x = s.product;
    let a = Rows {
        at: 0,
        count: b.count,
    };
    bivariate::opposite(p, r, w, a, b.at);
    let places = product::multiply_opposite(p, r, w, a, x);
    bivariate::even_part(r, s.half, w, x, s.rest);
    places
}

// The result: U(x^2, y) Q(-x, y), for the result U of the next level.
fn expand(p: u32, r: usize, w: &mut [u32], s: Layout) -> Weight
    requires { Parts p r s w.old }
    ensures { Expanded p r s w.old w.new result.places }
{
    let u = s.below;
    let factor = s.opposite;
    let x = s.product;
    let t = s.result;
    bivariate::squared(s.half, r, w, u, x.at);
    product::multiply_spread(
        p,
        r,
        w,
        Rows {
            at: x.at,
            count: u.count,
        },
        factor,
        s.window,
        t,
    )
}

// The last level, at order 1: leaves the powers of y from d to m - 1 of P / Q(0, y) behind the Q in the first q + 1 places.
fn last(p: u32, q: usize, d: usize, f: &[u32], w: &mut [u32])
    requires { LevelLent p 0 1 q d f.now w.old }
    ensures { Levelled p 0 1 q d f.now w.old w.new 0 }
{
    let m = f.len();
    let t = q + 1;
    division::numerator(f, w, t);
    division::divide(p, m, t, w);
    bivariate::window(1, w, Rows { at: t, count: m }, d);
}

// Leaves the powers of y from d to m - 1 of P / Q, below x^r, behind the Q in the first q + 1 rows of r places.
pub fn level(
    p: u32,
    levels: usize,
    r: usize,
    q: usize,
    d: usize,
    f: &[u32],
    w: &mut [u32],
) -> Weight
    requires { LevelLent p levels r q d f.now w.old }
    ensures { Levelled p levels r q d f.now w.old w.new result.places }
{
    if levels == 0 {
        last(p, q, d, f, w);
        return Weight::none();
    }
    let s = arrange(r, q, d, f.len());
    let rest = s.rest;
    let down = graeffe(p, r, w, s);
    let below = level(p, levels - 1, s.half, s.next, s.low, f, &mut w[rest..]);
    let up = expand(p, r, w, s);
    down.plus(below).plus(up)
}
