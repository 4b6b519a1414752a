// The call compose: f(g) modulo x^n by the route named, or a refusal. Its numbers, lists and buffers stay parameters, one by one: so C passes
// them, and so the promise `Compose` names them.
#![tactic(auto)]

ghost use Rattle.std.specs.Prelude.{◌≡◌, length, ◌<◌, ◌≤◌};
ghost use Rattle.definition.specs.Calls.{Compose};
ghost use Rattle.definition.specs.Prime.{Prime};
ghost use Rattle.definition.specs.Ranged.{block_length};
ghost use Rattle.definition.specs.Refusal.{longest_block};
ghost use Rattle.definition.specs.Weight.{weight};
ghost use Rattle.reason.specs.Numbers.{number, value};
ghost use Rattle.route.specs.Contract.{Lent, Route};

use product::Weight;
use reason::Refusal;

// The block length of route 2 where a call names none.
pub const BLOCK_LENGTH: usize = 4;

// The route of this number, route 2 in blocks of b places: f(g) modulo x^n, at place 0 of w. The route is a number and no enum: the contract
// takes every number, and `weight` gives those that name no route the fourth's.
pub fn run(route: u32, b: usize, p: u32, n: usize, f: &[u32], g: &[u32], w: &mut [u32]) -> Weight
    requires { Lent p n (length f.now) (length w.old) × Prime p × (route ≡ 2 → (0 < b) × (b ≤ longest_block)) }
    ensures { Route p n f.now g.now (weight route b p n (length f.now))
        w.old w.new result.places }
{
    match route {
        1 => horner::horner(p, n, f, g, w),
        2 => ranged::ranged(p, n, b, f, g, w),
        3 => bernstein::bernstein(p, n, f, g, w),
        _ => kinoshita_li::kinoshita_li(p, n, f, g, w),
    }
}

// f(g) modulo x^n in `out`, with the weight of the route. Route 2 takes blocks of b places.
pub fn compose_blocks(
    route: u32,
    b: usize,
    p: u32,
    n: usize,
    f: &[u32],
    g: &[u32],
    out: &mut [u32],
    work: &mut [u32],
) -> Result<u64, Refusal>
    ensures { Compose route b p n f.now g.now out.old out.new
        work.old work.new (number result) (value result) }
{
    refusal::compose(route, b, p, n, f, g, out.len(), work.len())?;
    let weight = run(route, b, p, n, f, g, work).value();
    route::finish(work, out, route::work_places(n, f.len()));
    Ok(weight)
}

// The same, in blocks of the length where none is named.
pub fn compose(
    route: u32,
    p: u32,
    n: usize,
    f: &[u32],
    g: &[u32],
    out: &mut [u32],
    work: &mut [u32],
) -> Result<u64, Refusal>
    ensures { Compose route block_length p n f.now g.now out.old out.new
        work.old work.new (number result) (value result) }
{
    compose_blocks(route, BLOCK_LENGTH, p, n, f, g, out, work)
}
