// Division of series in one variable, on places of one lent buffer, and f's list reversed, P of route 4: at order 1 P is divided by Q(0, y).
#![tactic(auto)]

ghost use Rattle.std.specs.Prelude.{◌≡◌, ◌+◌, ◌*◌, ◌≤◌, ◌<◌, ◌^◌, length};
ghost use Rattle.std.proofs.lemmas.List.Edits.{sets};
ghost use Rattle.definition.specs.KinoshitaLi.{numerator};
ghost use Rattle.definition.specs.Lists.{coefficient, tabulate};
ghost use Rattle.buffer.specs.Segments.{Apart, segment};
ghost use Rattle.division.specs.Doubling.{Doubling, Inverted, Inverting};
ghost use Rattle.division.specs.Quotient.{Divided, complement};

use field::Field;

// Writes P, f's list reversed, from place t of w on.
pub fn numerator(f: &[u32], w: &mut [u32], t: usize)
    requires { t + length f.now ≤ length w.old }
    ensures { w.new ≡ sets w.old t (numerator f.now) }
{
    let m = f.len();
    let mut k = 0;
    while k < m {
        w[t + k] = f[m - 1 - k];
        k += 1;
    }
}

// Coefficient j of 1 - b modulo p, for a b with constant term 1.
fn complement_place(p: u32, b: &[u32], j: usize) -> u32
    requires { 0 < p }
    ensures { result ≡ complement p (coefficient b.now) j }
{
    if j == 0 {
        return 0;
    }
    Field { modulus: p }.negative(route::place(b, j))
}

// Writes the first m coefficients of 1 - b modulo p at t, for the b with constant term 1 in the first `count` places.
fn complement(p: u32, m: usize, count: usize, w: &mut [u32], t: usize)
    requires { (0 < p) × Apart w.old 0 count t m }
    ensures { w.new ≡ sets w.old t (tabulate m (complement p (coefficient (segment w.old 0 count)))) }
{
    let mut k = 0;
    while k < m {
        w[t + k] = complement_place(p, &w[..count], k);
        k += 1;
    }
}

// One step of doubling. From place c on stand three parts of m places: C, without constant term, the inverse of 1 - C, known below k, and room.
// Afterwards it is known below what is given back, 2 k or m.
fn double(p: u32, m: usize, k: usize, w: &mut [u32], c: usize) -> usize
    requires { Doubling p m c k w.old }
    ensures { (k < result) × (result ≤ m) × Inverted p m c result w.old w.new }
{
    let v = c + m;
    let room = v + m;
    let next = number::smaller(2 * k, m);
    let more = next - k;
    buffer::clear_part(w, v + k, more);
    product::multiply(p, next, w, v, c, room);
    product::multiply(p, more, w, room + k, v, v + k);
    next
}

// The m places behind C, the m places from c on, become the first m coefficients of 1 / (1 - C) modulo p, for a C without constant term. The m
// places behind them are used.
fn inverse(p: u32, m: usize, w: &mut [u32], c: usize)
    requires { Inverting p m c w.old }
    ensures { Inverted p m c m w.old w.new }
{
    if m == 0 {
        return;
    }
    w[c + m] = 1 % p;
    let mut k = 1;
    while k < m {
        k = double(p, m, k, w, c);
    }
}

// The m places behind the first `count` ones, a, become the first m coefficients of a / b modulo p, for the b with constant term 1 in
// the first `count` places. The 3 m places behind them are used.
pub fn divide(p: u32, m: usize, count: usize, w: &mut [u32])
    requires { (0 < p) × (m ≤ 2 ^ 30) × (count + 4 * m ≤ length w.old) }
    ensures { Divided p m count w.old w.new }
{
    let c = count + m;
    let v = c + m;
    let room = v + m;
    complement(p, m, count, w, c);
    inverse(p, m, w, c);
    product::multiply(p, m, w, count, v, room);
    buffer::copy_part(w, room, count, m);
}
