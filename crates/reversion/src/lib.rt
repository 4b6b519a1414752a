// Reversion by Newton's iteration: h without constant term such that g(h) is x modulo x^n.
#![tactic(auto)]

ghost use Rattle.std.specs.Prelude.{◌≡◌, ◌<◌, length};
ghost use Rattle.definition.specs.Calls.{Reverse};
ghost use Rattle.newton_step.specs.Step.{Reversed};
ghost use Rattle.reason.specs.Numbers.{number};
ghost use Rattle.reversion.specs.Iteration.{Reversible};
ghost use Rattle.reversion.specs.Start.{started};

use field::Field;
use reason::Refusal;

// The reverse series below order 1 or 2: 0, and the inverse of the linear coefficient of g.
fn start(p: u32, g: &[u32], h: &mut [u32])
    requires { (1 < p) × (0 < length h.old) }
    ensures { h.new ≡ started p (length h.old) g.now }
{
    let n = h.len();
    buffer::clear(h, n);
    if 1 < n {
        h[1] = Field { modulus: p }.inverse(route::place(g, 1));
    }
}

// The reverse series below the order n, the count of h: from the one below n / 2 + 1, by a step.
fn newton(p: u32, g: &[u32], h: &mut [u32], w: &mut [u32])
    requires { Reversible p g.now h.old w.old }
    ensures { Reversed p (length h.old) g.now h.new w.old w.new }
{
    let n = h.len();
    if n <= 2 {
        start(p, g, h);
        return;
    }
    let half = n / 2 + 1;
    newton(p, g, &mut h[..half], w);
    newton_step::step(p, half, g, h, w);
}

// The reverse series of g: h without constant term such that g(h) is x modulo x^n, in `out`.
pub fn reverse(
    p: u32,
    n: usize,
    g: &[u32],
    out: &mut [u32],
    work: &mut [u32],
) -> Result<(), Refusal>
    ensures { Reverse p n g.now out.old out.new work.old work.new (number result) 0 }
{
    refusal::reverse(p, n, g, out.len(), work.len())?;
    newton(p, g, out, work);
    buffer::clear(work, route::work_places(n, g.len()));
    Ok(())
}
