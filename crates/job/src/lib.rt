// The job program's answer to a file: the file is read by its header, the job composed, and the answer rendered.
#![tactic(auto)]

ghost use Rattle.std.specs.Prelude.{◌≡◌, length, MatchResult};
ghost use Rattle.definition.specs.Calls.{Job, Render};
ghost use Rattle.definition.specs.Job.{most_places, order};
ghost use Rattle.definition.specs.Refusal.{compose_work};
ghost use Rattle.job_file.specs.File.{Accepted};
ghost use Rattle.reason.specs.Numbers.{number, number_of, value};
ghost use Rattle.job.specs.Run.{Composition, Lists};
ghost use Rattle.job.specs.Solved.{Printable, Solution};

use reason::Refusal;

// The work for the largest order and count.
const MOST_WORK: usize = (route::WORK_PER_POWER + route::WORK_PER_COEFFICIENT)
    * job_file::MOST_PLACES;

// The bytes of the longest answer: `ok `, 2 digits of order, a space, 20 digits of weight, a line end, and 64 coefficients of 10 digits, each
// with a space or a line end after it.
pub const LONGEST: usize = 731;

// Zeros for a list or the output.
fn places() -> [u32; job_file::MOST_PLACES]
    ensures { most_places ≡ length result }
{
    [0; job_file::MOST_PLACES]
}

// Zeros for the work.
fn work_places() -> [u32; MOST_WORK]
    ensures { compose_work most_places most_places ≡ length result }
{
    [0; MOST_WORK]
}

// Composes the lists of a file that the tests 12 and 13 let pass, into an output of exactly n places.
fn compose_lists(file: &[u8], f: &[u32], g: &[u32], output: &mut [u32]) -> Result<u64, Refusal>
    requires { Lists file.now f.now g.now output.old }
    ensures { Composition file.now output.old output.new (number result) (value result) }
{
    let mut work = work_places();
    let n = output.len();
    let end = route::work_places(n, f.len());
    compose::compose(
        job_file::field(file, 0),
        job_file::field(file, 1),
        n,
        f,
        g,
        output,
        &mut work[..end],
    )
}

// The same, with the lists read from the file.
fn compose_file(file: &[u8], output: &mut [u32]) -> Result<u64, Refusal>
    requires { Accepted file.now × (length output.old ≡ order file.now) }
    ensures { Composition file.now output.old output.new (number result) (value result) }
{
    let mut outer = places();
    let m = job_file::read_stated(file, 3, &mut outer);
    let mut inner = places();
    let k = job_file::read_stated(file, 5, &mut inner);
    compose_lists(file, &outer[..m], &inner[..k], output)
}

// The order and the weight of an accepted job.
#[derive(Clone, Copy)]
struct Solved {
    order: usize,
    weight: u64,
}

// Solves the job of a file; where it is accepted, the first places of `output`, as many as its order, are the composition.
fn solve(file: &[u8], output: &mut [u32]) -> Result<Solved, Refusal>
    requires { most_places ≡ length output.old }
    ensures { MatchResult result (λ solved. Solution file.now output.new 0 solved.order solved.weight)
        (λ refusal. Solution file.now output.new (number_of refusal) 0 0) }
{
    if job_file::too_large(file) {
        return Err(Refusal::FileSize);
    }
    if job_file::cut_short(file) {
        return Err(Refusal::FileShort);
    }
    let order = job_file::field(file, 2) as usize;
    let weight = compose_file(file, &mut output[..order])?;
    Ok(Solved { order, weight })
}

// The printed form of an answer of at most 64 coefficients, from place 0 of `text`; the count of its bytes.
fn print(number: u32, n: usize, weight: u64, list: &[u32], text: &mut [u8; LONGEST]) -> usize
    requires { Printable number n list.now }
    ensures { Render number n weight list.now text.old text.new 0 result }
{
    render::render(number, n, weight, list, text).unwrap_or(0)
}

// The job program's answer to a file, from place 0 of `text`; the count of its bytes.
pub fn answer(file: &[u8], text: &mut [u8; LONGEST]) -> usize
    ensures { Job file.now text.old text.new result }
{
    let mut output = places();
    match solve(file, &mut output) {
        Ok(solved) => print(
            0,
            solved.order,
            solved.weight,
            &output[..solved.order],
            text,
        ),
        Err(refusal) => print(refusal.into(), 0, 0, &[], text),
    }
}
