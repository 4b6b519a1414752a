// Why each of the calls compose, reverse, open (of a chain), cycle and render is refused, and the places of work of a cycle.
#![tactic(auto, unfolding(definition::specs::Refusal::compose_refusal, definition::specs::Refusal::cycle_refusal, definition::specs::Refusal::first, definition::specs::Refusal::not_places, definition::specs::Refusal::open_refusal, definition::specs::Refusal::render_refusal, definition::specs::Refusal::reverse_refusal, definition::specs::Refusal::too_long, reason::specs::Numbers::numbered))]

ghost use Rattle.std.specs.Prelude.{◌≡◌, ◌≤◌};
ghost use Rattle.definition.specs.Refusal.{
  compose_refusal,
  cycle_refusal,
  cycle_work,
  first,
  limit,
  open_refusal,
  render_refusal,
  reverse_refusal,
};
ghost use Rattle.reason.specs.Numbers.{number};
ghost use Rattle.refusal_tests.specs.Tests.{list_tests};

use reason::{Refusal, refuse_if};
use refusal_tests::{either_exceeds, either_has_constant, field, irreversible, routed, short_work};
use route::{LIMIT, WORK_PER_COEFFICIENT, WORK_PER_POWER};

// The places of work of a cycle for each power of x below the order. For each coefficient of its list they are those of a composition.
const CYCLE_WORK_PER_POWER: usize = 144;

// The most cycles of a chain.
const MOST_CYCLES: u32 = 64;

// The places of work that a cycle of m coefficients asks for.
pub fn cycle_places(n: usize, m: usize) -> usize
    requires { (n ≤ limit) × (m ≤ limit) }
    ensures { result ≡ cycle_work n m }
{
    CYCLE_WORK_PER_POWER * n + WORK_PER_COEFFICIENT * m
}

// The tests of compose for blocks of b places, an output of `places` places and `work` places of work.
pub fn compose(
    route: u32,
    b: usize,
    p: u32,
    n: usize,
    f: &[u32],
    g: &[u32],
    places: usize,
    work: usize,
) -> Result<(), Refusal>
    ensures { number result ≡ compose_refusal route b p n f.now g.now places work }
{
    routed(route, b, p, n)?;
    refuse_if(f.len() > LIMIT, Refusal::OuterLength)?;
    refuse_if(g.len() > LIMIT, Refusal::InnerLength)?;
    refuse_if(places != n, Refusal::Places)?;
    refuse_if(short_work(WORK_PER_POWER, n, f.len(), work), Refusal::Work)?;
    refuse_if(either_exceeds(p, f, g), Refusal::Coefficient)
}

// The tests of reverse for the series g, an output of `places` places and `work` places of work.
pub fn reverse(p: u32, n: usize, g: &[u32], places: usize, work: usize) -> Result<(), Refusal>
    ensures { number result ≡ reverse_refusal p n g.now places work }
{
    field(p, n)?;
    refuse_if(g.len() > LIMIT, Refusal::InnerLength)?;
    refuse_if(places != n, Refusal::Places)?;
    refuse_if(short_work(WORK_PER_POWER, n, g.len(), work), Refusal::Work)?;
    refuse_if(buffer::exceeds(g, p), Refusal::Coefficient)?;
    refuse_if(irreversible(n, g), Refusal::Irreversible)
}

// The tests of opening a chain for a running buffer of `places` places.
pub fn open(p: u32, n: usize, places: usize) -> Result<(), Refusal>
    ensures { number result ≡ open_refusal p n places }
{
    field(p, n)?;
    refuse_if(places != n, Refusal::Places)
}

// The tests of a cycle with the list c for blocks of b places, where s is the running series and `done` cycles are done.
pub fn cycle(
    route: u32,
    b: usize,
    p: u32,
    n: usize,
    done: u32,
    c: &[u32],
    s: &[u32],
    work: usize,
) -> Result<(), Refusal>
    ensures { number result ≡ cycle_refusal route b (record { modulus = p; order = n; done = done }) c.now s.now work }
{
    routed(route, b, p, n)?;
    refuse_if(c.len() > LIMIT, Refusal::InnerLength)?;
    refuse_if(s.len() != n, Refusal::Places)?;
    refuse_if(
        short_work(CYCLE_WORK_PER_POWER, n, c.len(), work),
        Refusal::Work,
    )?;
    refuse_if(either_exceeds(p, c, s), Refusal::Coefficient)?;
    refuse_if(either_has_constant(c, s), Refusal::Constant)?;
    refuse_if(done >= MOST_CYCLES, Refusal::Cycles)
}

// The tests that rendering the answer of number `answer` makes of order and list. A refusal meets neither.
pub fn list(answer: u32, n: usize, places: usize) -> Result<(), Refusal>
    ensures { number result ≡ first (list_tests answer n places) }
{
    if answer != 0 {
        return Ok(());
    }
    refuse_if(refusal_tests::bad_order(n), Refusal::Order)?;
    refuse_if(places != n, Refusal::Places)
}

// The tests of rendering for a list of `places` places, a text of `bytes` bytes and a buffer of `text` bytes.
pub fn render(
    answer: u32,
    n: usize,
    places: usize,
    bytes: usize,
    text: usize,
) -> Result<(), Refusal>
    ensures { number result ≡ render_refusal answer n places bytes text }
{
    list(answer, n, places)?;
    refuse_if(text < bytes, Refusal::Work)
}
