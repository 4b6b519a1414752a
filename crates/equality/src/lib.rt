// When two answers are equal (demand 3): two calls, each of compose or of a cycle, each with its own buffers, made one after the other,
// and the claim about what they leave. The claim and its proof for any two calls stand in the crate `two_calls`.
//
// The three functions stay apart. One over a trait of calls would need a struct for each kind that holds the lent buffers, and clauses that it
// still holds them, and could not state what each call promises of its own buffers, as the three do.
#![tactic(auto)]

ghost use Rattle.chain.specs.Record.{recorded};
ghost use Rattle.definition.specs.Calls.{Compose, Cycle};
ghost use Rattle.reason.specs.Numbers.{number, value};
ghost use Rattle.two_calls.specs.TwoCalls.{Equality};

use chain::{Chain, Cycled};
use reason::Refusal;

// Two calls of compose.
pub fn compose_and_compose(
    route1: u32,
    b1: usize,
    p1: u32,
    n1: usize,
    f1: &[u32],
    g1: &[u32],
    out1: &mut [u32],
    work1: &mut [u32],
    route2: u32,
    b2: usize,
    p2: u32,
    n2: usize,
    f2: &[u32],
    g2: &[u32],
    out2: &mut [u32],
    work2: &mut [u32],
) -> (Result<u64, Refusal>, Result<u64, Refusal>)
    ensures compose { Compose route1 b1 p1 n1 f1.now g1.now out1.old out1.new
        work1.old work1.new (number result.0) (value result.0) }
    ensures compose_2 { Compose route2 b2 p2 n2 f2.now g2.now out2.old out2.new
        work2.old work2.new (number result.1) (value result.1) }
    ensures equality { Equality (number result.0) p1 n1 f1.now g1.now out1.new
        (number result.1) p2 n2 f2.now g2.now out2.new }
{
    let first = compose::compose_blocks(route1, b1, p1, n1, f1, g1, out1, work1);
    let second = compose::compose_blocks(route2, b2, p2, n2, f2, g2, out2, work2);
    (first, second)
}

// A call of compose, and a cycle.
pub fn compose_and_cycle(
    route1: u32,
    b1: usize,
    p1: u32,
    n1: usize,
    f1: &[u32],
    g1: &[u32],
    out1: &mut [u32],
    work1: &mut [u32],
    chain2: Chain,
    route2: u32,
    b2: usize,
    list2: &[u32],
    running2: &mut [u32],
    work2: &mut [u32],
) -> (Result<u64, Refusal>, Cycled)
    ensures compose { Compose route1 b1 p1 n1 f1.now g1.now out1.old out1.new
        work1.old work1.new (number result.0) (value result.0) }
    ensures cycle { Cycle route2 b2 (recorded chain2) list2.now running2.old running2.new
        work2.old work2.new (number result.1.weight) (value result.1.weight) (recorded result.1.chain) }
    ensures equality { Equality (number result.0) p1 n1 f1.now g1.now out1.new
        (number result.1.weight) chain2.modulus chain2.order
        running2.old list2.now running2.new }
{
    let first = compose::compose_blocks(route1, b1, p1, n1, f1, g1, out1, work1);
    let second = chain2.cycle_blocks(route2, b2, list2, running2, work2);
    (first, second)
}

// Two cycles, each of a chain of its own.
pub fn cycle_and_cycle(
    chain1: Chain,
    route1: u32,
    b1: usize,
    list1: &[u32],
    running1: &mut [u32],
    work1: &mut [u32],
    chain2: Chain,
    route2: u32,
    b2: usize,
    list2: &[u32],
    running2: &mut [u32],
    work2: &mut [u32],
) -> (Cycled, Cycled)
    ensures cycle { Cycle route1 b1 (recorded chain1) list1.now running1.old running1.new
        work1.old work1.new (number result.0.weight) (value result.0.weight) (recorded result.0.chain) }
    ensures cycle_2 { Cycle route2 b2 (recorded chain2) list2.now running2.old running2.new
        work2.old work2.new (number result.1.weight) (value result.1.weight) (recorded result.1.chain) }
    ensures equality { Equality (number result.0.weight) chain1.modulus chain1.order
        running1.old list1.now running1.new
        (number result.1.weight) chain2.modulus chain2.order
        running2.old list2.now running2.new }
{
    let first = chain1.cycle_blocks(route1, b1, list1, running1, work1);
    let second = chain2.cycle_blocks(route2, b2, list2, running2, work2);
    (first, second)
}
