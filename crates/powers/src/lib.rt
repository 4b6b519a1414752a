// The powers of the inner list that the joins of route 2 need: g^b for blocks of b places, g^(2b), g^(4b) and on. The inner list stands at place 0 of the work
// buffer, its powers after it.
#![tactic(auto)]

ghost use Rattle.std.specs.Prelude.{◌≡◌, ◌-◌, ◌<◌, ◌≤◌};
ghost use Rattle.std.specs.Int.Count.{count_leading_zeros, ones};
ghost use Rattle.definition.specs.Refusal.{longest_block};
ghost use Rattle.powers.specs.Binary.{BasePower, DigitTaken, PowerOperands};
ghost use Rattle.powers.specs.Kept.{Powers, Squares};
ghost use Rattle.product.specs.Single.{Multiplied, Operands};

use product::Weight;

// The number of binary digits of b after the first.
fn further_digits(b: usize) -> usize
    requires { (0 < b) × (b ≤ longest_block) }
    ensures { result ≡ 32 - count_leading_zeros 32 b - 1 }
{
    (31 - u32::leading_zeros(b as u32)) as usize
}

// The number of those that are 1.
fn further_ones(b: usize) -> usize
    requires { (0 < b) × (b ≤ longest_block) }
    ensures { result ≡ ones b - 1 }
{
    (u32::count_ones(b as u32) - 1) as usize
}

// G := G². The n places from t on become S S modulo p, cut to n places, where S are those from s on.
fn step_square(p: u32, n: usize, w: &mut [u32], s: usize, t: usize) -> Weight
    requires { Operands p n s s t w.old }
    ensures { Multiplied p n s s t w.old w.new result.places }
{
    product::multiply(p, n, w, s, s, t)
}

// G := G g. The n places from t on become S g modulo p, cut to n places, where S are those from s on and g the first n.
fn step_multiply(p: u32, n: usize, w: &mut [u32], s: usize, t: usize) -> Weight
    requires { Operands p n s 0 t w.old }
    ensures { Multiplied p n s 0 t w.old w.new result.places }
{
    product::multiply(p, n, w, s, 0, t)
}

// The next binary digit of the exponent is taken: a squaring, and where the digit is 1 a product with g. So many products are due, these among them.
fn take_digit(p: u32, n: usize, digit: usize, due: usize, w: &mut [u32]) -> Weight
    requires { PowerOperands p n 1 w.old × (digit < 2) × (digit < due) }
    ensures { DigitTaken p n digit due w.old w.new result.places }
{
    let from = buffer::running_place(n, n, due);
    let to = buffer::running_place(n, n, due - 1);
    let squared = step_square(p, n, w, from, to);
    if digit == 0 {
        return squared;
    }
    let multiplied = step_multiply(p, n, w, to, from);
    squared.plus(multiplied)
}

// Left-to-right binary powering: the n places from n on become g^b modulo p, cut to n places, where g are the first n places. The n places after them are
// used.
fn base_power(p: u32, n: usize, b: usize, w: &mut [u32]) -> Weight
    requires { PowerOperands p n 1 w.old × ((0 < b) × (b ≤ longest_block)) }
    ensures { BasePower p n b w.old w.new result.places }
{
    let mut left = further_digits(b);
    let mut due = left + further_ones(b);
    let start = buffer::running_place(n, n, due);
    buffer::copy_part(w, 0, start, n);
    let mut weight = Weight::none();
    while 0 < left {
        left -= 1;
        let digit = (b >> left) % 2;
        let products = take_digit(p, n, digit, due, w);
        weight = weight.plus(products);
        due -= 1 + digit;
    }
    weight
}

// The power at place n is squared, and the square squared, until there are as many powers as rounds, one after the other.
fn squares(p: u32, n: usize, rounds: usize, w: &mut [u32]) -> Weight
    requires { PowerOperands p n rounds w.old × (0 < rounds) }
    ensures { Squares p n rounds w.old w.new result.places }
{
    let mut weight = Weight::none();
    let mut i = 1;
    while i < rounds {
        let places = step_square(p, n, w, i * n, (i + 1) * n);
        weight = weight.plus(places);
        i += 1;
    }
    weight
}

// The powers of the inner list that so many rounds of joins of blocks of b places need: none where there is nothing to join.
pub fn powers(p: u32, n: usize, b: usize, rounds: usize, w: &mut [u32]) -> Weight
    requires { PowerOperands p n rounds w.old × ((0 < b) × (b ≤ longest_block)) }
    ensures { Powers p n b rounds w.old w.new result.places }
{
    if rounds == 0 {
        return Weight::none();
    }
    let first = base_power(p, n, b, w);
    let others = squares(p, n, rounds, w);
    first.plus(others)
}
