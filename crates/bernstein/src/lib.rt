// Route 3, Bernstein (document 000, section 2): f is split by powers modulo p, each part is composed at order ⌈n/p⌉, and the parts are joined.
//
// A level works on the places of its slice: g at 0, f at n, the value at n + m, the next part's value at 2n + m. The rest, from 3n + m on, is lent to
// the next level, which finds h and a part of f there.
#![tactic(auto)]

ghost use Rattle.std.specs.Prelude.{◌≡◌, ◌+◌, ◌<◌, ◌≤◌, length};
ghost use Rattle.std.proofs.lemmas.List.Edits.{sets};
ghost use Rattle.definition.specs.Bernstein.{pth_powers};
ghost use Rattle.definition.specs.Lists.{ceil_div};
ghost use Rattle.definition.specs.Prime.{Prime};
ghost use Rattle.definition.specs.Substitution.{composed};
ghost use Rattle.definition.specs.Weight.{bernstein_weight};
ghost use Rattle.buffer.specs.Segments.{segment};
ghost use Rattle.route.specs.Contract.{Lent, Route};
ghost use Rattle.bernstein.specs.Level.{Joined, Level, PartReady, PartValue, Room, rest_at};

use product::Weight;

// Writes f(0) modulo p, for f of at most one place.
fn constant(p: u32, n: usize, m: usize, w: &mut [u32])
    requires { Room p n m w.old × (m ≤ 1) }
    ensures { w.new ≡ sets w.old (n + m)
        (composed p n (segment w.old n m) (segment w.old 0 n)) }
{
    let end = n + m;
    let c = route::place(&w[n..end], 0);
    route::put_constant(c % p, n, w, end);
}

// Writes h, the p-th powers of the first ⌈n/p⌉ places of g, at the beginning of the rest.
fn prepare(p: u32, n: usize, m: usize, w: &mut [u32])
    requires { Room p n m w.old }
    ensures { w.new ≡ sets w.old (rest_at n m) (pth_powers p (segment w.old 0 (ceil_div n p))) }
{
    let order = number::rounded_up(n, p as usize);
    parts::pth_powers(p, w, 0, order, n + m + n + n);
}

// Joins the next part's value to the value: it becomes the next one + the value × g, cut to n places.
fn join(p: u32, n: usize, m: usize, w: &mut [u32]) -> Weight
    requires { Room p n m w.old }
    ensures { Joined p n m w.old w.new result.places }
{
    let value = n + m;
    let next = value + n;
    let places = product::multiply_add(p, n, w, value, 0, next);
    buffer::copy_part(w, next, value, n);
    places
}

// The value of part j at order ⌈n/p⌉, with x^p put for y, becomes the next part's value.
#[cycle(join_parts_level_part_value)]
fn part_value(p: u32, n: usize, m: usize, j: usize, w: &mut [u32]) -> Weight
    requires { PartReady p n m j w.old }
    ensures { PartValue p n m j w.old w.new result.places }
{
    let next = n + m + n;
    let rest = next + n;
    let step = p as usize;
    let order = number::rounded_up(n, step);
    let at = rest + order;
    let count = parts::part(step, j, w, n, m, at);
    let sum = level(p, order, count, &mut w[rest..]);
    parts::spread(step, n, w, at + count, order, next);
    sum
}

// The parts from the top one down, joined by Horner's rule in g.
#[cycle(join_parts_level_part_value)]
fn join_parts(p: u32, n: usize, m: usize, w: &mut [u32]) -> Weight
    requires { Room p n m w.old × (1 < m) }
    ensures { Level p n m w.old w.new result.places }
{
    let value = n + m;
    prepare(p, n, m, w);
    let mut j = parts::top_part(p, m);
    let mut weight = part_value(p, n, m, j, w);
    buffer::copy_part(w, value + n, value, n);
    while 0 < j {
        j -= 1;
        let composed = part_value(p, n, m, j, w);
        let joined = join(p, n, m, w);
        weight = weight.plus(composed).plus(joined);
    }
    weight
}

// f(g) modulo x^n and p, where g and f are the first n and the next m places: written behind them.
#[cycle(join_parts_level_part_value)]
fn level(p: u32, n: usize, m: usize, w: &mut [u32]) -> Weight
    requires { Room p n m w.old }
    ensures { Level p n m w.old w.new result.places }
{
    if m <= 1 {
        constant(p, n, m, w);
        return Weight::none();
    }
    join_parts(p, n, m, w)
}

// Route 3: f(g) modulo x^n, for a prime p, at place 0 of w.
pub fn bernstein(p: u32, n: usize, f: &[u32], g: &[u32], w: &mut [u32]) -> Weight
    requires { Lent p n (length f.now) (length w.old) × Prime p }
    ensures { Route p n f.now g.now (bernstein_weight p n (length f.now))
        w.old w.new result.places }
{
    let m = f.len();
    route::put(g, n, w, 0);
    route::put(f, m, w, n);
    let weight = level(p, n, m, w);
    buffer::copy_part(w, n + m, 0, n);
    weight
}
