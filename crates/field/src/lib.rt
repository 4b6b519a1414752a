// Prime fields: the modulus record with its refusing constructor, and arithmetic modulo p.
#![tactic(auto)]

ghost use Rattle.std.specs.Prelude.{◌≡◌, ◌+◌, ◌-◌, ◌*◌, ◌^◌, ◌%◌, ◌<◌};
ghost use Rattle.definition.specs.Prime.{is_prime};
ghost use Rattle.definition.specs.KinoshitaLi.{negative};

// The field of the residues modulo `modulus`.
#[derive(Clone, Copy)]
pub struct Field {
    pub modulus: u32,
    pub ghost positive: { 0 < modulus },
}

// The whole product, which 64 bits hold.
fn whole_product(a: u32, b: u32) -> u64
    ensures { result ≡ a * b }
{
    u64::from(a) * u64::from(b)
}

// From each number prime to 30 to the next one, from 7 on.
const STEPS: [u32; 8] = [4, 2, 4, 2, 4, 6, 2, 6];

// Whether `p` is prime, by division by 2, 3, 5 and the numbers prime to 30 up to the square root.
#[tactic(auto, using(crate::proofs::Wheel::by_trial), unfolding(crate::specs::Wheel::steps))]
pub fn is_prime(p: u32) -> bool
    ensures { result ≡ is_prime p }
{
    if p < 2 {
        return false;
    }
    if p % 2 == 0 {
        return p == 2;
    }
    if p % 3 == 0 {
        return p == 3;
    }
    if p % 5 == 0 {
        return p == 5;
    }
    let mut d: u32 = 7;
    // tried `for step in STEPS.iter().cycle()`: its goal `loop-step-init` asks for an iterator that ends
    let mut i: usize = 0;
    while whole_product(d, d) <= u64::from(p) {
        if p % d == 0 {
            return false;
        }
        d += STEPS[i];
        i = (i + 1) % 8;
    }
    true
}

impl Field {
    ghost use Rattle.field.specs.Opening.{Opening};

    // The largest modulus.
    pub const LARGEST: u32 = 4294967295;

    // The field of modulus `p`, for a prime up to the largest modulus.
    pub fn new(p: u32) -> Option<Field>
        ensures { Opening p result }
    {
        if p <= Self::LARGEST && is_prime(p) {
            Some(Field { modulus: p })
        } else {
            None
        }
    }

    // x modulo p.
    pub fn reduced(self, x: u64) -> u32
        ensures { result ≡ x % self.modulus }
    {
        (x % u64::from(self.modulus)) as u32
    }

    // a + b modulo p.
    pub fn sum(self, a: u32, b: u32) -> u32
        ensures { result ≡ (a + b) % self.modulus }
    {
        self.reduced(u64::from(a) + u64::from(b))
    }

    // -a modulo p.
    #[tactic(auto, unfolding(definition::specs::KinoshitaLi::negative))]
    pub fn negative(self, a: u32) -> u32
        ensures { result ≡ negative self.modulus a }
    {
        (self.modulus - a % self.modulus) % self.modulus
    }

    // a - b modulo p.
    pub fn difference(self, a: u32, b: u32) -> u32
        ensures { result ≡ (a + negative self.modulus b) % self.modulus }
    {
        self.sum(a, self.negative(b))
    }

    // a b modulo p.
    pub fn product(self, a: u32, b: u32) -> u32
        ensures { result ≡ (a * b) % self.modulus }
    {
        self.reduced(whole_product(a, b))
    }

    // a^e modulo p, by squaring.
    pub fn power(self, a: u32, e: u32) -> u32
        ensures { result ≡ (a ^ e) % self.modulus }
    {
        let mut r = 1 % self.modulus;
        let mut b = a;
        let mut k = e;
        // k is halved: a `for` over the bits of e would count them beside it
        while 0 < k {
            if k % 2 == 1 {
                r = self.product(r, b);
            }
            b = self.product(b, b);
            k /= 2;
        }
        r
    }

    // a^(p - 2) modulo p: the inverse of a where p is prime and does not divide a (`inverse` of Fermat, in algebra).
    pub fn inverse(self, a: u32) -> u32
        requires { 1 < self.modulus }
        ensures { result ≡ (a ^ (self.modulus - 2)) % self.modulus }
    {
        self.power(a, self.modulus - 2)
    }
}
