// Route 2, ranged Horner (document 004, Algorithm 2): blocks of the outer list by Horner, joined in pairs with powers of the inner list.
// The inner list stands at place 0 of the work buffer, its powers after it. The joins go depth first, so that few results are kept.
#![tactic(auto)]

ghost use Rattle.std.specs.Prelude.{◌≡◌, length, ◌+◌, ◌*◌, ◌^◌, ◌<◌, ◌≤◌, min};
ghost use Rattle.definition.specs.Lists.{ceil_div};
ghost use Rattle.definition.specs.Ranged.{block};
ghost use Rattle.definition.specs.Refusal.{limit, longest_block};
ghost use Rattle.definition.specs.Weight.{halvings, ranged_weight};
ghost use Rattle.horner.specs.Part.{Part};
ghost use Rattle.route.specs.Contract.{Lent, Route};
ghost use Rattle.product.specs.Single.{Operands};
ghost use Rattle.ranged.specs.Joins.{SpanOperands, SpanPart};
ghost use Rattle.ranged.specs.Neighbours.{Joined};

use product::Weight;

// The number of rounds in which m places, in blocks of b, are joined.
fn rounds(m: usize, b: usize) -> usize
    requires { (m ≤ limit) × (0 < b) × (b ≤ longest_block) }
    ensures { result ≡ halvings (ceil_div m b) }
{
    number::halvings(number::rounded_up(m, b))
}

// 2^level
fn power_of_two(level: usize) -> usize
    requires { level ≤ 12 }
    ensures { result ≡ 2 ^ level }
{
    1 << level
}

// The place where block j of a list of m places begins: m where the list has ended.
fn block_place(b: usize, j: usize, m: usize) -> usize
    requires { b * j < 2 ^ 64 }
    ensures { result ≡ min (b * j) m }
{
    number::smaller(b * j, m)
}

// The n places from t on become f's block j at G modulo p and x^n, by Horner, where G are the first n places. The n places after them are used.
fn compose_block(p: u32, n: usize, b: usize, f: &[u32], j: usize, w: &mut [u32], t: usize) -> Weight
    requires { SpanOperands p n b 0 j t f.now w.old }
    ensures { Part p n (block b j f.now) 0 t w.old w.new result.places }
{
    let start = block_place(b, j, f.len());
    let end = block_place(b, j + 1, f.len());
    horner::horner_part(p, n, &f[start..end], w, 0, t)
}

// even + odd × G: the n places from t on become they + S G modulo p, cut to n places, where S are the n places beside them and G those from `power` on.
// The product goes to the n places after S, and is added then.
fn join(p: u32, n: usize, w: &mut [u32], power: usize, t: usize) -> Weight
    requires { Operands p n (t + n) power (t + 2 * n) w.old }
    ensures { Joined p n power t w.old w.new result.places }
{
    let beside = t + n;
    let free = t + 2 * n;
    let places = product::multiply(p, n, w, beside, power, free);
    route::add_part(p, n, w, free, t);
    places
}

// The n places from t on become the part of f from block j on, at most 2^level blocks long, at G modulo p and x^n, where G are the first n
// places and their powers follow them. The even half at t joins with the odd half beside it; without partner it passes on.
fn compose_span(
    p: u32,
    n: usize,
    b: usize,
    f: &[u32],
    level: usize,
    j: usize,
    w: &mut [u32],
    t: usize,
) -> Weight
    requires { SpanOperands p n b level j t f.now w.old }
    ensures { SpanPart p n b level j t f.now w.old w.new result.places }
{
    if level == 0 {
        return compose_block(p, n, b, f, j, w, t);
    }
    let below = level - 1;
    let even = compose_span(p, n, b, f, below, j, w, t);
    let next = j + power_of_two(below);
    if f.len() <= b * next {
        return even;
    }
    let beside = t + n;
    let odd = compose_span(p, n, b, f, below, next, w, beside);
    let power = level * n;
    let joined = join(p, n, w, power, t);
    even.plus(odd).plus(joined)
}

// Route 2 in blocks of b places: f(g) modulo x^n, at place 0 of w.
pub fn ranged(p: u32, n: usize, b: usize, f: &[u32], g: &[u32], w: &mut [u32]) -> Weight
    requires { Lent p n (length f.now) (length w.old) × ((0 < b) × (b ≤ longest_block)) }
    ensures { Route p n f.now g.now (ranged_weight b n (length f.now))
        w.old w.new result.places }
{
    let levels = rounds(f.len(), b);
    let t = (levels + 1) * n;
    route::put(g, n, w, 0);
    let formed = powers::powers(p, n, b, levels, w);
    let joined = compose_span(p, n, b, f, levels, 0, w, t);
    buffer::copy_part(w, t, 0, n);
    formed.plus(joined)
}
