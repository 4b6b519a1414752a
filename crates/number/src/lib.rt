// Counts: the smaller of two, a difference that stops at 0, a quotient rounded up, and the number of halvings.
#![tactic(auto)]

ghost use Rattle.std.specs.Prelude.{◌≡◌, ◌+◌, ◌-◌, ◌<◌, ◌^◌, min};
ghost use Rattle.definition.specs.Lists.{ceil_div};
ghost use Rattle.definition.specs.Weight.{halvings};

// The smaller of two numbers.
pub fn smaller(a: usize, b: usize) -> usize
    ensures { result ≡ min a b }
{
    if a < b { a } else { b }
}

// a - b, or 0 where b is larger.
pub fn excess(a: usize, b: usize) -> usize
    ensures { result ≡ a - b }
{
    if a < b { 0 } else { a - b }
}

// a / b, rounded up.
pub fn rounded_up(a: usize, b: usize) -> usize
    requires { (0 < b) × (a + b < 2 ^ 64) }
    ensures { result ≡ ceil_div a b }
{
    (a + (b - 1)) / b
}

// K, the least number with 2^K at least n, from the leading zeros of n - 1.
pub fn halvings(n: usize) -> usize
    ensures { result ≡ halvings n }
{
    if n <= 1 {
        return 0;
    }
    (64 - usize::leading_zeros(n - 1)) as usize
}
