// Newton's step for a reverse series: from h below the order half to h - (g(h) - x) h' modulo p below n. The error g(h) - x has no power below half,
// so that the places of h below half stay, and the product is one at the order n - half.
#![tactic(auto)]

ghost use Rattle.std.specs.Prelude.{◌≡◌, ◌+◌, ◌<◌, ◌≤◌, length};
ghost use Rattle.std.proofs.lemmas.List.Edits.{sets};
ghost use Rattle.definition.specs.Lists.{coefficient};
ghost use Rattle.definition.specs.Refusal.{limit};
ghost use Rattle.buffer.specs.Segments.{segment};
ghost use Rattle.newton_step.specs.Newton.{derivative, difference};
ghost use Rattle.newton_step.specs.Step.{Reversed, StepLent, ValuePut};
ghost use Rattle.route.specs.Contract.{Lent};

use field::Field;

// The largest order at which g(h) is computed by Horner's rule: up to about there it is quicker than route 4.
const LARGEST_BY_HORNER: usize = 40;

// Writes g(h) modulo p, cut to the places of h, from place 0 of w on. As h has no constant term, no more places of g matter than h has.
fn put_value(p: u32, g: &[u32], h: &[u32], w: &mut [u32])
    requires { (coefficient h.now 0 ≡ 0) × Lent p (length h.now) (length g.now) (length w.old) }
    ensures { ValuePut p g.now h.now w.old w.new }
{
    let n = h.len();
    let m = number::smaller(n, g.len());
    let f = &g[..m];
    if n <= LARGEST_BY_HORNER {
        horner::horner(p, n, f, h, w);
        return;
    }
    kinoshita_li::kinoshita_li(p, n, f, h, w);
}

// Writes the first n places of the derivative of h modulo p from place t of w on.
fn put_derivative(p: u32, n: usize, h: &[u32], w: &mut [u32], t: usize)
    requires { (0 < p) × (n < length h.now) × (n < limit) × (t + n ≤ length w.old) }
    ensures { w.new ≡ sets w.old t (derivative p n h.now) }
{
    let mut k = 0;
    while k < n {
        w[t + k] = Field { modulus: p }.product((k + 1) as u32, h[k + 1]);
        k += 1;
    }
}

// h becomes h - b modulo p, where b are the places of w from t on.
fn subtract(p: u32, h: &mut [u32], w: &[u32], t: usize)
    requires { (0 < p) × (t + length h.old ≤ length w.now) }
    ensures { h.new ≡ difference p (length h.old) h.old
        (segment w.now t (length h.old)) }
{
    let mut k = 0;
    while k < h.len() {
        h[k] = Field { modulus: p }.difference(h[k], w[t + k]);
        k += 1;
    }
}

// Newton's step from the order half to n, the count of h. Its places from half on may hold anything. The first places of w are used, as many as the
// composition g(h) is lent.
pub fn step(p: u32, half: usize, g: &[u32], h: &mut [u32], w: &mut [u32])
    requires { StepLent p half g.now h.old w.old }
    ensures { Reversed p (length h.old) g.now h.new w.old w.new }
{
    let n = h.len();
    let rest = n - half;
    put_value(p, g, h, w);
    put_derivative(p, rest, h, w, n);
    product::multiply(p, rest, w, half, n, 2 * n);
    subtract(p, &mut h[half..], w, 2 * n);
}
