// The C interface: compose, reverse, the calls of a chain, the table of primes and rendering as C functions; compose and the cycle with a block
// length for route 2, and without one. A slice passes as its pointer and its count.
#![tactic(auto)]

ghost use Rattle.std.specs.Prelude.{◌≡◌};
ghost use Rattle.chain.specs.Record.{opened, recorded};
ghost use Rattle.definition.specs.Calls.{Compose, Cycle, Open, Render, Reverse, Table};
ghost use Rattle.definition.specs.Ranged.{block_length};
ghost use Rattle.reason.specs.Numbers.{number, value};

use chain::Chain;
use reason::Refusal;

// What compose and reverse answer. Each answer has the fields of its struct in include/ruhitapo.h: the number, 0 where the call is accepted,
// and what comes beside it, 0 after a refusal.
#[repr(C)]
#[derive(Clone, Copy)]
pub struct Answer {
    pub number: u32,
    pub weight: u64,
}

// What opening a chain answers, with the record that it leaves: zeros after a refusal.
#[repr(C)]
#[derive(Clone, Copy)]
pub struct Opened {
    pub number: u32,
    pub weight: u64,
    pub chain: Chain,
}

// What a cycle answers, with the record that it leaves. It stays a struct of its own: C has it as one.
#[repr(C)]
#[derive(Clone, Copy)]
pub struct Cycled {
    pub number: u32,
    pub weight: u64,
    pub chain: Chain,
}

// What the table answers.
#[repr(C)]
#[derive(Clone, Copy)]
pub struct Prime {
    pub number: u32,
    pub prime: u32,
}

// What rendering answers: the count of bytes.
#[repr(C)]
#[derive(Clone, Copy)]
pub struct Text {
    pub number: u32,
    pub count: usize,
}

// The number of an answer.
fn number_of<T: Copy>(answer: Result<T, Refusal>) -> u32
    ensures { result ≡ number answer }
{
    match answer {
        Ok(_) => 0,
        Err(refusal) => refusal.into(),
    }
}

impl From<Result<u64, Refusal>> for Answer {
    ghost from_gives = { λ answer a. (a.number ≡ number answer) × (a.weight ≡ value answer) };

    fn from(answer: Result<u64, Refusal>) -> Answer {
        Answer {
            number: number_of(answer),
            weight: answer.unwrap_or(0),
        }
    }
}

impl From<Result<Chain, Refusal>> for Opened {
    ghost from_gives = { λ answer a. (a.number ≡ number answer) × (a.weight ≡ 0) × (recorded a.chain ≡ opened answer) };

    fn from(answer: Result<Chain, Refusal>) -> Opened {
        let none = Chain {
            modulus: 0,
            order: 0,
            done: 0,
        };
        Opened {
            number: number_of(answer),
            weight: 0,
            chain: answer.unwrap_or(none),
        }
    }
}

impl From<Result<u32, Refusal>> for Prime {
    ghost from_gives = { λ answer a. (a.number ≡ number answer) × (a.prime ≡ value answer) };

    fn from(answer: Result<u32, Refusal>) -> Prime {
        Prime {
            number: number_of(answer),
            prime: answer.unwrap_or(0),
        }
    }
}

impl From<Result<usize, Refusal>> for Text {
    ghost from_gives = { λ answer a. (a.number ≡ number answer) × (a.count ≡ value answer) };

    fn from(answer: Result<usize, Refusal>) -> Text {
        Text {
            number: number_of(answer),
            count: answer.unwrap_or(0),
        }
    }
}

// f(g) modulo x^n over the integers modulo p, by the route named, with blocks of so many places in route 2.
#[unsafe(no_mangle)]
pub extern "C" fn ruhitapo_compose_blocks(
    route: u32,
    block: usize,
    p: u32,
    n: usize,
    f: &[u32],
    g: &[u32],
    out: &mut [u32],
    work: &mut [u32],
) -> Answer
    ensures { Compose route block p n f.now g.now out.old out.new
        work.old work.new result.number result.weight }
{
    compose::compose_blocks(route, block, p, n, f, g, out, work).into()
}

// The same, in blocks of the length where none is named.
#[unsafe(no_mangle)]
pub extern "C" fn ruhitapo_compose(
    route: u32,
    p: u32,
    n: usize,
    f: &[u32],
    g: &[u32],
    out: &mut [u32],
    work: &mut [u32],
) -> Answer
    ensures { Compose route block_length p n f.now g.now out.old out.new
        work.old work.new result.number result.weight }
{
    compose::compose(route, p, n, f, g, out, work).into()
}

// The reverse series of g modulo x^n.
#[unsafe(no_mangle)]
pub extern "C" fn ruhitapo_reverse(
    p: u32,
    n: usize,
    g: &[u32],
    out: &mut [u32],
    work: &mut [u32],
) -> Answer
    ensures { Reverse p n g.now out.old out.new work.old work.new
        result.number result.weight }
{
    reversion::reverse(p, n, g, out, work).map(|()| 0).into()
}

// Opens a chain: the running series becomes x modulo x^n.
#[unsafe(no_mangle)]
pub extern "C" fn ruhitapo_open(p: u32, n: usize, running: &mut [u32]) -> Opened
    ensures { Open p n running.old running.new result.number result.weight (recorded result.chain) }
{
    Chain::open(p, n, running).into()
}

// A cycle of a chain, whose record comes as its numbers, with blocks of so many places in route 2.
#[unsafe(no_mangle)]
pub extern "C" fn ruhitapo_cycle_blocks_numbers(
    modulus: u32,
    order: usize,
    done: u32,
    route: u32,
    block: usize,
    list: &[u32],
    running: &mut [u32],
    work: &mut [u32],
) -> Cycled
    ensures { Cycle route block (record { modulus = modulus; order = order; done = done }) list.now
        running.old running.new work.old work.new
        result.number result.weight (recorded result.chain) }
{
    let chain = Chain {
        modulus,
        order,
        done,
    };
    let cycled = chain.cycle_blocks(route, block, list, running, work);
    let answer: Answer = cycled.weight.into();
    Cycled {
        number: answer.number,
        weight: answer.weight,
        chain: cycled.chain,
    }
}

// The same, in blocks of the length where none is named.
#[unsafe(no_mangle)]
pub extern "C" fn ruhitapo_cycle_numbers(
    modulus: u32,
    order: usize,
    done: u32,
    route: u32,
    list: &[u32],
    running: &mut [u32],
    work: &mut [u32],
) -> Cycled
    ensures { Cycle route block_length (record { modulus = modulus; order = order; done = done }) list.now
        running.old running.new work.old work.new
        result.number result.weight (recorded result.chain) }
{
    let block = compose::BLOCK_LENGTH;
    ruhitapo_cycle_blocks_numbers(modulus, order, done, route, block, list, running, work)
}

// Entry `index` of the table of the sixteen primes.
#[unsafe(no_mangle)]
pub extern "C" fn ruhitapo_prime(index: u32) -> Prime
    ensures { Table index result.number result.prime }
{
    primes::prime(index).into()
}

// The printed answer for a refusal number, or for 0 with order, weight and coefficients.
#[unsafe(no_mangle)]
pub extern "C" fn ruhitapo_render(
    number: u32,
    n: usize,
    weight: u64,
    list: &[u32],
    text: &mut [u8],
) -> Text
    ensures { Render number n weight list.now text.old text.new result.number result.count }
{
    render::render(number, n, weight, list, text).into()
}
