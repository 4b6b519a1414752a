// The remainders modulo p of sums that are kept in two parts: a sum modulo 2^64, and beside it a count of 2^32 that falls short of it by less than
// 2^46 (`rows` makes such sums).
#![tactic(auto)]

ghost use Rattle.std.specs.Prelude.{◌≡◌, ◌+◌, ◌-◌, ◌*◌, ◌/◌, ◌%◌, ◌^◌, ◌<◌, ◌≤◌, length};
ghost use Rattle.std.proofs.lemmas.List.Edits.{sets};
ghost use Rattle.remainder.specs.Inverse.{Between};
ghost use Rattle.rows.specs.Sums.{Small, low_part, remainder_list};

// The remainder of 2^32 high + low modulo m by one division, where first is 2^32 and second is 2^64 modulo m.
fn folded(m: u64, first: u64, second: u64, high: u64, low: u64) -> u32
    requires { (0 < m) × (m < 2 ^ 32) × (first ≡ 2 ^ 32 % m) × (second ≡ 2 ^ 64 % m) × (high < 2 ^ 46) × (low < 2 ^ 46) }
    ensures { result ≡ (2 ^ 32 * high + low) % m }
{
    ((high / 4294967296 * second + high % 4294967296 * first + low) % m) as u32
}

// What 2^32 h leaves of a number that is s modulo 2^64.
fn low_part(s: u64, h: u64) -> u64
    ensures { result ≡ low_part s h }
{
    std::num::wrapping_sub_u64(s, h % 4294967296 * 4294967296)
}

// The first n places of z become the remainders of the sums, by divisions.
fn by_division(p: u32, n: usize, sums: &[u64], high: &[u64], z: &mut [u32])
    requires { (0 < p) × Small n sums.now high.now × (n ≤ length z.old) }
    ensures { z.new ≡ sets z.old 0 (remainder_list p n sums.now high.now) }
{
    let m = residue::wide(p);
    let first = 4294967296 % m;
    let second = first * first % m;
    let mut k = 0;
    while k < n {
        let h = high[k];
        z[k] = folded(m, first, second, h, low_part(sums[k], h));
        k += 1;
    }
}

// A number below 2^50 with the remainder of the sum modulo m, where `inverse` is the quotient of 2^62 - 1 by m: a multiple of m is taken off that the
// upper bits tell. The divisors are 2^14, 2^34 and 2^46.
fn to_50_bits(m: u64, inverse: u64, sum: u64, high: u64) -> u64
    requires { Between m × (inverse ≡ (2 ^ 62 - 1) / m) × (high < 2 ^ 46) × (low_part sum high < 2 ^ 46) }
    ensures { (result < 2 ^ 50) × (result % m ≡ (2 ^ 32 * high + low_part sum high) % m) }
{
    let q = residue::times(high / 16384, inverse) / 17179869184;
    std::num::wrapping_sub_u64(sum, residue::times(q, m) % 70368744177664 * 262144)
}

// The same of a number of 50 bits: what is left is below 2 m. The divisors are 2^18 and 2^44.
fn to_twice(m: u64, inverse: u64, r: u64) -> u64
    requires { Between m × (inverse ≡ (2 ^ 62 - 1) / m) × (r < 2 ^ 50) }
    ensures { (result < m + m) × (result % m ≡ r % m) }
{
    let q = residue::times(r / 262144, inverse) / 17592186044416;
    r - residue::times(q, m)
}

// The remainder of a sum by multiplications.
fn by_multiplication(p: u32, inverse: u64, sum: u64, high: u64) -> u32
    requires { Between p × (inverse ≡ (2 ^ 62 - 1) / p) × (high < 2 ^ 46) × (low_part sum high < 2 ^ 46) }
    ensures { result ≡ (2 ^ 32 * high + low_part sum high) % p }
{
    let m = residue::wide(p);
    let r = to_50_bits(m, inverse, sum, high);
    residue::difference(p, to_twice(m, inverse, r) as u32, p)
}

// The first n places of z become the remainders of the sums, by multiplications.
fn by_inverse(p: u32, n: usize, sums: &[u64], high: &[u64], z: &mut [u32])
    requires { Between p × Small n sums.now high.now × (n ≤ length z.old) }
    ensures { z.new ≡ sets z.old 0 (remainder_list p n sums.now high.now) }
{
    let inverse = 4611686018427387903 / residue::wide(p);
    let mut k = 0;
    while k < n {
        z[k] = by_multiplication(p, inverse, sums[k], high[k]);
        k += 1;
    }
}

// The first n places of z become the remainders of the sums. The moduli of the table lie between 2^30 and 2^31: 2^32 has two or three times such a
// number in it. A comparison would say the same, but from it the compiler knows that the inverse has 32 bits, drops the remainder in `times` that
// tells it so, and then multiplies numbers of 64 bits.
pub fn remainders(p: u32, n: usize, sums: &[u64], high: &[u64], z: &mut [u32])
    requires { (0 < p) × Small n sums.now high.now × (n ≤ length z.old) }
    ensures { z.new ≡ sets z.old 0 (remainder_list p n sums.now high.now) }
{
    if 4294967296 / residue::wide(p) / 2 == 1 {
        by_inverse(p, n, sums, high, z);
    } else {
        by_division(p, n, sums, high, z);
    }
}
