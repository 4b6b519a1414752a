// Coefficients of a product modulo p, each an exact sum of products of 32-bit numbers and one remainder.
#![tactic(auto)]

ghost use Rattle.std.specs.Prelude.{◌≡◌, ◌+◌, ◌*◌, ◌%◌, ◌<◌, ◌^◌, length};
ghost use Rattle.definition.specs.Lists.{coefficient};
ghost use Rattle.definition.specs.Substitution.{product};

// The remainder of 2^32 high + low modulo p, by two divisions.
fn remainder(p: u32, high: u64, low: u64) -> u32
    requires { (0 < p) × (high < 2 ^ 63) }
    ensures { result ≡ (2 ^ 32 * high + low) % p }
{
    let m = residue::wide(p);
    let top = (high + low / 4294967296) % m;
    ((top * 4294967296 + low % 4294967296) % m) as u32
}

// Coefficient k of c + x y modulo p. The sum is exact, its low and high halves kept apart, and the remainder is taken once.
pub fn product_coefficient(p: u32, c: u32, x: &[u32], y: &[u32], k: usize) -> u32
    requires { (0 < p) × (k < length x.now) × (k < length y.now) × (k < 2 ^ 30) }
    ensures { result ≡ (c + product (coefficient x.now) (coefficient y.now) k) % p }
{
    let mut low = residue::wide(c);
    let mut high: u64 = 0;
    let mut i = 0;
    while i <= k {
        let z = residue::wide(x[i]) * residue::wide(y[k - i]);
        low += z % 4294967296;
        high += z / 4294967296;
        i += 1;
    }
    remainder(p, high, low)
}
