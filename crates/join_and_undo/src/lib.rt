// A chain cut in two and joined again, and a cycle undone (N6): the calls that do so, made one after the other, and what they leave. The
// theorems over the calls stand in the crate `sequence`.
#![tactic(auto)]

ghost use Rattle.std.specs.Prelude.{ℕ, List, ◌≡◌};
ghost use Rattle.chain.specs.Record.{recorded};
ghost use Rattle.definition.specs.Calls.{Compose, Cycle, Reverse};
ghost use Rattle.reason.specs.Numbers.{number, value};
ghost use Rattle.sequence.specs.Cut.{Joined};

use chain::{Chain, Cycled};
use reason::Refusal;

// The answers of a reverse, of the cycle and of the cycle that undoes it.
#[derive(Clone, Copy)]
pub struct Undone {
    pub reversed: Result<(), Refusal>,
    pub cycled: Cycled,
    pub undone: Cycled,
}

// Joins the halves of a protocol: the running series of a chain, composed with that of a second chain, opened with the same p and n. Where
// the answer is 0, the output is the running series of all cycles, those of the first chain and then those of the second.
pub fn join(
    route: u32,
    b: usize,
    p: u32,
    n: usize,
    first: &[u32],
    second: &[u32],
    out: &mut [u32],
    work: &mut [u32],
) -> Result<u64, Refusal>
    ensures compose { Compose route b p n first.now second.now out.old out.new
        work.old work.new (number result) (value result) }
    ensures joined { Joined p n first.now second.now (number result) out.new }
{
    compose::compose_blocks(route, b, p, n, first, second, out, work)
}

// A cycle and its undoing: the reverse series of the cycle list in `reverse`, then the cycle, then a cycle with the reverse series. Each is
// called, whatever the one before answered. Where none was refused, the running series is as it was. In the contract, running1 is
// what the running series is between the two cycles, work1 and work2 what the work buffer holds before the first and before the second.
pub fn undo(
    chain: Chain,
    route1: u32,
    b1: usize,
    route2: u32,
    b2: usize,
    list: &[u32],
    reverse: &mut [u32],
    running: &mut [u32],
    work: &mut [u32],
) -> Undone
    ensures calls { (running1 : List ℕ) × (work1 : List ℕ) × (work2 : List ℕ)
        × Reverse chain.modulus chain.order list.now reverse.old reverse.new
        work.old work1 (number result.reversed) 0
        × Cycle route1 b1 (recorded chain) list.now running.old running1
        work1 work2 (number result.cycled.weight) (value result.cycled.weight) (recorded result.cycled.chain)
        × Cycle route2 b2 (recorded result.cycled.chain) reverse.new running1 running.new
        work2 work.new (number result.undone.weight) (value result.undone.weight) (recorded result.undone.chain) }
    ensures running_unchanged { number result.reversed ≡ 0 → number result.cycled.weight ≡ 0 → number result.undone.weight ≡ 0 → running.new ≡ running.old }
{
    let reversed = reversion::reverse(chain.modulus, chain.order, list, reverse, work);
    let cycled = chain.cycle_blocks(route1, b1, list, running, work);
    let next = cycled.chain;
    let undone = next.cycle_blocks(route2, b2, reverse, running, work);
    Undone {
        reversed,
        cycled,
        undone,
    }
}
