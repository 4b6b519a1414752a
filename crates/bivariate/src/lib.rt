// The steps of route 4 on polynomials in x and y, in rows of one lent buffer, row j for y^j: Q(-x, y), the even part, x^2 for x, and a window of the
// powers of y. Each is written row by row, so no place is divided by the length of a row. Products stand in `product`, Q = 1 - y g in `denominator`.
#![tactic(auto)]

ghost use Rattle.std.specs.Prelude.{◌≡◌, ◌+◌, ◌-◌, ◌*◌, ◌<◌, ◌≤◌, length};
ghost use Rattle.std.proofs.lemmas.List.Edits.{sets};
ghost use Rattle.definition.specs.KinoshitaLi.{even_part, negative, opposite, plane, squared, window};
ghost use Rattle.definition.specs.Lists.{tabulate};
ghost use Rattle.product.specs.Planes.{held};
ghost use Rattle.bivariate.specs.Steps.{Source};

use product::Rows;

// -c modulo p. Only a c that is not below p is divided.
pub fn negative(p: u32, c: u32) -> u32
    requires { 0 < p }
    ensures { result ≡ negative p c }
{
    residue::difference(p, 0, residue::reduced(p, c))
}

// The coefficient of y^j x^i in the polynomial in rows of r places at a.
fn held_place(w: &[u32], r: usize, a: Rows, j: usize, i: usize) -> u32
    requires { a.at + a.count * r ≤ length w.now }
    ensures { result ≡ held r w.now a j i }
{
    if j < a.count {
        if i < r {
            return w[a.at + j * r + i];
        }
    }
    0
}

// The coefficient of y^j x^i in a(-x, y).
fn opposite_place(p: u32, w: &[u32], r: usize, a: Rows, j: usize, i: usize) -> u32
    requires { (0 < p) × (a.at + a.count * r ≤ length w.now) }
    ensures { result ≡ opposite p (held r w.now a) j i }
{
    let c = held_place(w, r, a, j, i);
    if i % 2 == 0 { c } else { negative(p, c) }
}

// Writes row j of a(-x, y) at t, for the a in rows of r places.
fn opposite_row(p: u32, r: usize, w: &mut [u32], a: Rows, j: usize, t: usize)
    requires { (0 < p) × Source r a t r w.old }
    ensures { w.new ≡ sets w.old t (tabulate r (opposite p (held r w.old a) j)) }
{
    let mut i = 0;
    while i < r {
        w[t + i] = opposite_place(p, w, r, a, j, i);
        i += 1;
    }
}

// Writes a(-x, y) at t, for the a in rows of r places.
pub fn opposite(p: u32, r: usize, w: &mut [u32], a: Rows, t: usize)
    requires { (0 < p) × Source r a t (a.count * r) w.old }
    ensures { w.new ≡ sets w.old t (plane r a.count (opposite p (held r w.old a))) }
{
    let mut j = 0;
    while j < a.count {
        opposite_row(p, r, w, a, j, t + j * r);
        j += 1;
    }
}

// Writes row j of the even powers of x in a, x for x^2, at t in h places, for the a in rows of r places.
fn even_row(r: usize, h: usize, w: &mut [u32], a: Rows, j: usize, t: usize)
    requires { Source r a t h w.old }
    ensures { w.new ≡ sets w.old t (tabulate h (even_part (held r w.old a) j)) }
{
    let mut i = 0;
    while i < h {
        w[t + i] = held_place(w, r, a, j, 2 * i);
        i += 1;
    }
}

// Writes the even powers of x in a, x for x^2, at t in rows of h places, for the a in rows of r places.
pub fn even_part(r: usize, h: usize, w: &mut [u32], a: Rows, t: usize)
    requires { Source r a t (a.count * h) w.old }
    ensures { w.new ≡ sets w.old t (plane h a.count (even_part (held r w.old a))) }
{
    let mut j = 0;
    while j < a.count {
        even_row(r, h, w, a, j, t + j * h);
        j += 1;
    }
}

// The coefficient of y^j x^i in a(x^2, y), for the a in rows of h places.
fn squared_place(w: &[u32], h: usize, a: Rows, j: usize, i: usize) -> u32
    requires { a.at + a.count * h ≤ length w.now }
    ensures { result ≡ squared (held h w.now a) j i }
{
    if i % 2 == 0 {
        held_place(w, h, a, j, i / 2)
    } else {
        0
    }
}

// Writes row j of a(x^2, y) at t in r places, for the a in rows of h places.
fn squared_row(h: usize, r: usize, w: &mut [u32], a: Rows, j: usize, t: usize)
    requires { Source h a t r w.old }
    ensures { w.new ≡ sets w.old t (tabulate r (squared (held h w.old a) j)) }
{
    let mut i = 0;
    while i < r {
        w[t + i] = squared_place(w, h, a, j, i);
        i += 1;
    }
}

// Writes a(x^2, y) at t in rows of r places, for the a in rows of h places.
pub fn squared(h: usize, r: usize, w: &mut [u32], a: Rows, t: usize)
    requires { Source h a t (a.count * r) w.old }
    ensures { w.new ≡ sets w.old t (plane r a.count (squared (held h w.old a))) }
{
    let mut j = 0;
    while j < a.count {
        squared_row(h, r, w, a, j, t + j * r);
        j += 1;
    }
}

// The powers of y from `low` on, moved down to 0, for the a in rows of r places.
pub fn window(r: usize, w: &mut [u32], a: Rows, low: usize)
    requires { (low ≤ a.count) × (a.at + a.count * r ≤ length w.old) }
    ensures { w.new ≡ sets w.old a.at (plane r (a.count - low) (window low (held r w.old a))) }
{
    buffer::copy_part(w, a.at + low * r, a.at, (a.count - low) * r);
}
