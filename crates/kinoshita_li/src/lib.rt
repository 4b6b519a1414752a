// Route 4, Kinoshita and Li (document 001, Algorithm 2): f(g) modulo x^n as a coefficient of P / (1 - y g), by halving the order in x.
#![tactic(auto)]

ghost use Rattle.std.specs.Prelude.{length};
ghost use Rattle.definition.specs.Weight.{kinoshita_li_weight};
ghost use Rattle.kinoshita_li.specs.Whole.{Fraction, FractionLent};
ghost use Rattle.route.specs.Contract.{Lent, Route};

use product::Weight;

// Leaves f(g) modulo x^n behind the q + 1 rows of Q = 1 - y g. All of w is used.
fn fraction(p: u32, n: usize, q: usize, f: &[u32], g: &[u32], w: &mut [u32]) -> Weight
    requires { FractionLent p n q f.now w.old }
    ensures { Fraction p n q f.now g.now w.new result.places }
{
    denominator::denominator(p, n, q + 1, g, w);
    levels::level(p, number::halvings(n), n, q, f.len() - 1, f, w)
}

// Route 4: f(g) modulo x^n, at place 0 of w.
pub fn kinoshita_li(p: u32, n: usize, f: &[u32], g: &[u32], w: &mut [u32]) -> Weight
    requires { Lent p n (length f.now) (length w.old) }
    ensures { Route p n f.now g.now (kinoshita_li_weight n (length f.now))
        w.old w.new result.places }
{
    let m = f.len();
    if m == 0 {
        route::put_constant(0, n, w, 0);
        return Weight::none();
    }
    let places = route::work_places(n, m);
    let q = number::smaller(1, m - 1);
    let weight = fraction(p, n, q, f, g, &mut w[..places]);
    buffer::copy_part(w, (q + 1) * n, 0, n);
    weight
}
