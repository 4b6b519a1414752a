// Route 1, Horner (document 004): from the top coefficient on, multiply by g and add the next. Route 2 takes its blocks this way too.
#![tactic(auto)]

ghost use Rattle.std.specs.Prelude.{◌≡◌, ◌+◌, ◌%◌, ◌<◌, length, set};
ghost use Rattle.definition.specs.Lists.{coefficient};
ghost use Rattle.definition.specs.Weight.{horner_weight};
ghost use Rattle.horner.specs.Part.{Part, PartOperands};
ghost use Rattle.horner.specs.Steps.{Taken};
ghost use Rattle.product.specs.Single.{Multiplied, Operands};
ghost use Rattle.route.specs.Contract.{Lent, Route};

use product::Weight;

// (a) ans := ans g. The n places from t on become S G modulo p, cut to n places, where S and G are the n places from s and from b on.
fn step_a_multiply(p: u32, n: usize, w: &mut [u32], s: usize, b: usize, t: usize) -> Weight
    requires { Operands p n s b t w.old }
    ensures { Multiplied p n s b t w.old w.new result.places }
{
    product::multiply(p, n, w, s, b, t)
}

// (b) ans := ans + c. To place t, the constant term of the series there, c is added modulo p.
fn step_b_add(p: u32, c: u32, w: &mut [u32], t: usize)
    requires { (0 < p) × (t < length w.old) }
    ensures { w.new ≡ set w.old t ((coefficient w.old t + c) % p) }
{
    w[t] = residue::reduced_sum(p, w[t], c);
}

// The next coefficient c is taken: (a), then (b). S are the n places from s on, and S G + c comes to those from t on.
fn take_next(p: u32, n: usize, c: u32, w: &mut [u32], s: usize, b: usize, t: usize) -> Weight
    requires { Operands p n s b t w.old × (0 < n) }
    ensures { Taken p n c s b t w.old w.new result.places }
{
    let places = step_a_multiply(p, n, w, s, b, t);
    step_b_add(p, c, w, t);
    places
}

// Document 004, Algorithm 1: the top coefficient, then steps (a) and (b) for each lower one. The n places from t on become f(G) modulo p and x^n,
// where G are the n places from b on. The n places after them are used.
pub fn horner_part(p: u32, n: usize, f: &[u32], w: &mut [u32], b: usize, t: usize) -> Weight
    requires { PartOperands p n f.now b t w.old }
    ensures { Part p n f.now b t w.old w.new result.places }
{
    let mut i = number::excess(f.len(), 1);
    let c = route::place(f, i);
    let top = buffer::running_place(n, t, i);
    route::put_constant(c % p, n, w, top);
    let mut weight = Weight::none();
    while 0 < i {
        let from = buffer::running_place(n, t, i);
        i -= 1;
        let to = buffer::running_place(n, t, i);
        let places = take_next(p, n, f[i], w, from, b, to);
        weight = weight.plus(places);
    }
    weight
}

// Route 1: f(g) modulo x^n, at place 0 of w.
pub fn horner(p: u32, n: usize, f: &[u32], g: &[u32], w: &mut [u32]) -> Weight
    requires { Lent p n (length f.now) (length w.old) }
    ensures { Route p n f.now g.now (horner_weight n (length f.now))
        w.old w.new result.places }
{
    route::put(g, n, w, 0);
    let weight = horner_part(p, n, f, w, 0, n);
    buffer::copy_part(w, n, 0, n);
    weight
}
