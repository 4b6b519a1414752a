// Chains of cycles: a record of modulus, order and cycles done, by value, and the calls that open it and carry out a cycle. The running
// series stands in a buffer that the caller lends.
#![tactic(auto)]

ghost use Rattle.std.specs.Prelude.{◌≡◌, length};
ghost use Rattle.chain.specs.Record.{opened, recorded};
ghost use Rattle.definition.specs.Calls.{Cycle, Open};
ghost use Rattle.definition.specs.Ranged.{block_length};
ghost use Rattle.definition.specs.Reversion.{identity};
ghost use Rattle.reason.specs.Numbers.{number, value};

use product::Weight;
use reason::Refusal;

// A chain record.
#[repr(C)]
#[derive(Clone, Copy)]
pub struct Chain {
    pub modulus: u32,
    pub order: usize,
    pub done: u32,
}

// What a cycle gives: the next record, which is the same where the cycle is refused, and the weight of the route.
#[derive(Clone, Copy)]
pub struct Cycled {
    pub chain: Chain,
    pub weight: Result<u64, Refusal>,
}

// The whole buffer becomes x modulo x^n, n being its count.
fn put_identity(s: &mut [u32])
    ensures { s.new ≡ identity (length s.old) }
{
    let x = [0, 1];
    route::put(&x, s.len(), s, 0);
}

impl Chain {
    // Opens a chain: the running series becomes x modulo x^n.
    pub fn open(modulus: u32, order: usize, running: &mut [u32]) -> Result<Chain, Refusal>
        ensures { Open modulus order running.old running.new (number result) 0 (opened result) }
    {
        refusal::open(modulus, order, running.len())?;
        put_identity(running);
        Ok(Chain {
            modulus,
            order,
            done: 0,
        })
    }

    // A cycle on the record as it stands. It answers the weight of the route.
    fn carry_out(
        &mut self,
        route: u32,
        b: usize,
        list: &[u32],
        running: &mut [u32],
        work: &mut [u32],
    ) -> Result<u64, Refusal>
        ensures { Cycle route b (recorded self.old) list.now running.old running.new
            work.old work.new (number result) (value result) (recorded self.new) }
    {
        let (p, n) = (self.modulus, self.order);
        refusal::cycle(route, b, p, n, self.done, list, running, work.len())?;
        let products: Weight = compose::run(route, b, p, n, running, list, work);
        let weight = products.value();
        route::finish(work, running, refusal::cycle_places(n, list.len()));
        self.done += 1;
        Ok(weight)
    }

    // A cycle: the running series S becomes S(C) modulo x^n by the route named, C being the list, so that the earliest cycle is outermost.
    // Route 2 takes blocks of b places.
    pub fn cycle_blocks(
        mut self,
        route: u32,
        b: usize,
        list: &[u32],
        running: &mut [u32],
        work: &mut [u32],
    ) -> Cycled
        ensures { Cycle route b (recorded self) list.now running.old running.new
            work.old work.new (number result.weight) (value result.weight) (recorded result.chain) }
    {
        let weight = self.carry_out(route, b, list, running, work);
        Cycled {
            chain: self,
            weight,
        }
    }

    // The same, in blocks of the length where none is named.
    pub fn cycle(self, route: u32, list: &[u32], running: &mut [u32], work: &mut [u32]) -> Cycled
        ensures { Cycle route block_length (recorded self) list.now running.old running.new
            work.old work.new (number result.weight) (value result.weight) (recorded result.chain) }
    {
        self.cycle_blocks(route, compose::BLOCK_LENGTH, list, running, work)
    }
}
