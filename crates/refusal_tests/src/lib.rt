// The tests that the calls make of what they are handed, and the tests that many calls begin with.
#![tactic(auto, using(std::proofs::lemmas::Bool::Decides::nat_tests), unfolding(definition::specs::Refusal::bad_block, definition::specs::Refusal::bad_order, definition::specs::Refusal::bad_route, definition::specs::Refusal::first, definition::specs::Refusal::has_constant, definition::specs::Refusal::irreversible, reason::specs::Numbers::numbered))]

ghost use Rattle.std.specs.Prelude.{ltb, ◌||◌, [], ◌∷◌, ◌≡◌, ◌<◌};
ghost use Rattle.definition.specs.Refusal.{bad_block, bad_modulus, bad_order, bad_route, exceeds, first, has_constant, irreversible, test, work_places};
ghost use Rattle.reason.specs.Numbers.{number};
ghost use Rattle.refusal_tests.specs.Tests.{field_tests, routed_tests};

use field::Field;
use reason::{Refusal, refuse_if};
use route::{LIMIT, WORK_PER_COEFFICIENT};

// The longest block of route 2.
const LONGEST_BLOCK: usize = 64;

// Whether the route is not 1, 2, 3 or 4.
pub fn bad_route(route: u32) -> bool
    ensures { result ≡ bad_route route }
{
    !(1..=4).contains(&route)
}

// Whether the route is 2 and its block length b is 0 or above the longest.
pub fn bad_block(route: u32, b: usize) -> bool
    ensures { result ≡ bad_block route b }
{
    route == 2 && !(1..=LONGEST_BLOCK).contains(&b)
}

// Whether p is not prime or above the largest modulus. A prime of the table is known by a look at it.
pub fn bad_modulus(p: u32) -> bool
    ensures { result ≡ bad_modulus p }
{
    !primes::in_table(p) && Field::new(p).is_none()
}

// Whether n is 0 or above the limit.
pub fn bad_order(n: usize) -> bool
    ensures { result ≡ bad_order n }
{
    !(1..=LIMIT).contains(&n)
}

// Whether g has no reverse series modulo x^n.
pub fn irreversible(n: usize, g: &[u32]) -> bool
    ensures { result ≡ irreversible n g.now }
{
    route::place(g, 0) != 0 || n > 1 && route::place(g, 1) == 0
}

// Whether a coefficient of one of two lists is p or more.
pub fn either_exceeds(p: u32, a: &[u32], b: &[u32]) -> bool
    ensures { result ≡ (exceeds p a.now || exceeds p b.now) }
{
    buffer::exceeds(a, p) || buffer::exceeds(b, p)
}

// Whether the constant term of one of two lists is not zero.
pub fn either_has_constant(a: &[u32], b: &[u32]) -> bool
    ensures { result ≡ (has_constant a.now || has_constant b.now) }
{
    route::place(a, 0) != 0 || route::place(b, 0) != 0
}

// Whether `work` is below the places of work for order n and m coefficients, a number that a word need not hold.
pub fn short_work(factor: usize, n: usize, m: usize, work: usize) -> bool
    requires { 0 < factor }
    ensures { result ≡ ltb work (work_places factor n m) }
{
    work / factor < n || (work - factor * n) / WORK_PER_COEFFICIENT < m
}

// The tests of modulus and order.
pub fn field(p: u32, n: usize) -> Result<(), Refusal>
    ensures { number result ≡ first (field_tests p n) }
{
    refuse_if(bad_modulus(p), Refusal::Modulus)?;
    refuse_if(bad_order(n), Refusal::Order)
}

// The tests of route, block length, modulus and order.
pub fn routed(route: u32, b: usize, p: u32, n: usize) -> Result<(), Refusal>
    ensures { number result ≡ first (routed_tests route b p n) }
{
    refuse_if(bad_route(route), Refusal::Route)?;
    refuse_if(bad_block(route, b), Refusal::Block)?;
    field(p, n)
}
