// Residues modulo p, without a division by p where the numbers are residues already.
#![tactic(auto)]

ghost use Rattle.std.specs.Prelude.{◌≡◌, ◌+◌, ◌*◌, ◌%◌, ◌^◌, ◌<◌, ◌≤◌};
ghost use Rattle.definition.specs.KinoshitaLi.{negative};

// x modulo p.
pub fn reduced(p: u32, x: u32) -> u32
    requires { 0 < p }
    ensures { result ≡ x % p }
{
    if x < p { x } else { x % p }
}

// A number as a wider one.
pub fn wide(x: u32) -> u64
    ensures { result ≡ x }
{
    x as u64
}

// The product of two numbers of 32 bits. The remainders change nothing; they tell the compiler that a vector instruction will do.
pub fn times(a: u64, b: u64) -> u64
    requires { (a < 2 ^ 32) × (b < 2 ^ 32) }
    ensures { result ≡ a * b }
{
    (a % 4294967296) * (b % 4294967296)
}

// a - b modulo p, where b is at most p and the difference below p. Below 0 it wraps, and p is added.
pub fn difference(p: u32, a: u32, b: u32) -> u32
    requires { (a < p + b) × (b ≤ p) }
    ensures { result ≡ (a + negative p b) % p }
{
    let more = if a < b { p } else { 0 };
    std::num::wrapping_add_u32(std::num::wrapping_sub_u32(a, b), more)
}

// a + b modulo p, of residues a and b.
pub fn sum(p: u32, a: u32, b: u32) -> u32
    requires { (a < p) × (b < p) }
    ensures { result ≡ (a + b) % p }
{
    difference(p, a, p - b)
}

// a + b modulo p, of any numbers a and b.
pub fn reduced_sum(p: u32, a: u32, b: u32) -> u32
    requires { 0 < p }
    ensures { result ≡ (a + b) % p }
{
    let c = reduced(p, a);
    let d = reduced(p, b);
    sum(p, c, d)
}
