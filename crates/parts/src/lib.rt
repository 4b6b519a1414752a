// The steps of route 3 (document 000, section 2), on places of one lent buffer: the parts of f by powers modulo p, the p-th powers of g's coefficients,
// and x^p put for y.
#![tactic(auto)]

ghost use Rattle.std.specs.Prelude.{◌≡◌, ◌+◌, ◌-◌, ◌<◌, ◌^◌, min};
ghost use Rattle.std.proofs.lemmas.List.Edits.{sets};
ghost use Rattle.definition.specs.Bernstein.{pth_powers, spread, spread_list};
ghost use Rattle.definition.specs.Lists.{coefficient};
ghost use Rattle.definition.specs.Prime.{Prime};
ghost use Rattle.parts.specs.Steps.{Parted};
ghost use Rattle.buffer.specs.Segments.{segment, Apart};

// The number of the top part of m places.
pub fn top_part(p: u32, m: usize) -> usize
    requires { (0 < p) × (0 < m) }
    ensures { result ≡ min p m - 1 }
{
    number::smaller(p as usize, m) - 1
}

// Writes part j of the m places from a on, from place t on. Gives the count of its places.
pub fn part(p: usize, j: usize, w: &mut [u32], a: usize, m: usize, t: usize) -> usize
    requires { (0 < p) × (j < m) × (m + p < 2 ^ 64) × Apart w.old a m t m }
    ensures { Parted p j a m t w.old w.new result }
{
    let count = number::rounded_up(m - j, p);
    let mut i = 0;
    while i < count {
        w[t + i] = w[a + (j + p * i)];
        i += 1;
    }
    count
}

// Writes the p-th powers of the k places from a on, modulo p, from place t on. Modulo a prime, a number is its own p-th power.
pub fn pth_powers(p: u32, w: &mut [u32], a: usize, k: usize, t: usize)
    requires { Prime p × Apart w.old a k t k }
    ensures { w.new ≡ sets w.old t (pth_powers p (segment w.old a k)) }
{
    let mut i = 0;
    while i < k {
        w[t + i] = w[a + i] % p;
        i += 1;
    }
}

// Coefficient k of a list with x^p put for y.
fn spread_coefficient(p: usize, l: &[u32], k: usize) -> u32
    requires { 0 < p }
    ensures { result ≡ spread p (coefficient l.now) k }
{
    if k % p == 0 {
        route::place(l, k / p)
    } else {
        0
    }
}

// Writes the k places from a on, with x^p put for y and cut to n places, from place t on.
pub fn spread(p: usize, n: usize, w: &mut [u32], a: usize, k: usize, t: usize)
    requires { (0 < p) × Apart w.old a k t n }
    ensures { w.new ≡ sets w.old t (spread_list p n (segment w.old a k)) }
{
    let end = a + k;
    let mut i = 0;
    while i < n {
        w[t + i] = spread_coefficient(p, &w[a..end], i);
        i += 1;
    }
}
