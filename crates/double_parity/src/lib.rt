// The parts of polynomials in x and y by even and odd powers of x, for Karatsuba's rule: the halves of a part and their sum, and a product that is woven from
// three products of them. Polynomials stand in blocks (`grids`).
#![tactic(auto)]

ghost use Rattle.std.specs.Prelude.{false, ◌≡◌, ◌+◌, ◌*◌, ◌%◌, ◌<◌, ◌≤◌, ◌^◌, length};
ghost use Rattle.std.proofs.lemmas.List.Edits.{sets};
ghost use Rattle.definition.specs.KinoshitaLi.{plane};
ghost use Rattle.definition.specs.Lists.{tabulate};
ghost use Rattle.grids.specs.Parts.{Lies, facing, grid_at, packed};
ghost use Rattle.double_parity.specs.Halves.{even_half, folded, folded_part, lower_half, odd_half, upper, upper_half};
ghost use Rattle.double_parity.specs.Weave.{Thirds, blocks, column, woven_plane};

use grids::Grid;

// Some rows of a product, from row `low` on, and so many places of each, in blocks: its rows or, turned, its columns.
#[derive(Clone, Copy)]
pub struct Results {
    pub turned: bool,
    pub low: usize,
    pub rows: usize,
    pub places: usize,
}

// The even powers of x in a part.
pub fn even_half(g: Grid) -> Grid
    requires { 2 * g.inner < 2 ^ 64 }
    ensures { result ≡ even_half g }
{
    Grid {
        at: g.at,
        outer: g.outer,
        inner: 2 * g.inner,
        count: g.count,
        length: g.length - g.length / 2,
    }
}

// The odd powers of x in a part.
pub fn odd_half(g: Grid) -> Grid
    requires { (2 * g.inner < 2 ^ 64) × (g.at + g.inner < 2 ^ 64) }
    ensures { result ≡ odd_half g }
{
    Grid {
        at: g.at + g.inner,
        outer: g.outer,
        inner: 2 * g.inner,
        count: g.count,
        length: g.length / 2,
    }
}

// The part that `fold` writes.
pub fn folded_part(g: Grid) -> Grid
    ensures { result ≡ folded_part g }
{
    let half = g.length - g.length / 2;
    Grid {
        at: 0,
        outer: half,
        inner: 1,
        count: g.count,
        length: half,
    }
}

// The results at even powers of x.
pub fn upper_half(t: Results) -> Results
    ensures { result ≡ upper_half t }
{
    Results {
        turned: t.turned,
        low: t.low,
        rows: t.rows,
        places: t.places - t.places / 2,
    }
}

// The results at odd powers of x.
pub fn lower_half(t: Results) -> Results
    ensures { result ≡ lower_half t }
{
    Results {
        turned: t.turned,
        low: t.low,
        rows: t.rows,
        places: t.places / 2,
    }
}

// The coefficient of y^j x^i in a part modulo p.
fn part_place(p: u32, g: Grid, w: &[u32], j: usize, i: usize) -> u32
    requires { (0 < p) × Lies g w.now }
    ensures { result ≡ grid_at g w.now j i % p }
{
    if j < g.count {
        if i < g.length {
            return residue::reduced(p, w[g.at + j * g.outer + i * g.inner]);
        }
    }
    0
}

// Writes row j of the sum of the even and the odd part, of n places, at t.
fn fold_row(p: u32, g: Grid, w: &[u32], j: usize, n: usize, s: &mut [u32], t: usize)
    requires { (0 < p) × Lies g w.now × (n ≤ 2 ^ 32) × (t + n ≤ length s.old) }
    ensures { s.new ≡ sets s.old t (tabulate n (folded p (grid_at g w.now) j)) }
{
    let mut i = 0;
    while i < n {
        let even = part_place(p, g, w, j, 2 * i);
        let odd = part_place(p, g, w, j, 2 * i + 1);
        s[t + i] = residue::sum(p, even, odd);
        i += 1;
    }
}

// Writes the sum of the even and the odd part modulo p, its rows one after the other.
pub fn fold(p: u32, g: Grid, w: &[u32], s: &mut [u32])
    requires { (0 < p) × Lies g w.now × (g.length ≤ 2 ^ 32) × (g.count * upper g.length ≤ length s.old) }
    ensures { s.new ≡ sets s.old 0 (plane (upper g.length) g.count (folded p (grid_at g w.now))) }
{
    let n = g.length - g.length / 2;
    let mut j = 0;
    while j < g.count {
        fold_row(p, g, w, j, n, s, j * n);
        j += 1;
    }
}

// The coefficient of y^j x^i in the product: `even`, `odd` and `sums` hold the products of the even parts, of the odd parts and of their sums.
fn woven_place(
    p: u32,
    t: Results,
    even: &[u32],
    odd: &[u32],
    sums: &[u32],
    j: usize,
    i: usize,
) -> u32
    requires { Thirds p t even.now odd.now sums.now × (j < t.rows) × (i < t.places) }
    ensures { result ≡ woven_plane p t even.now odd.now sums.now j i }
{
    let k = i / 2;
    let half = t.places / 2;
    let e = double_rows::packed(t.turned, t.places - half, t.rows, even, j, k);
    if i % 2 == 1 {
        let o = double_rows::packed(t.turned, half, t.rows, odd, j, k);
        let m = double_rows::packed(t.turned, half, t.rows, sums, j, k);
        return parity::cross(p, m, e, o);
    }
    if k == 0 {
        return e;
    }
    residue::sum(
        p,
        e,
        double_rows::packed(t.turned, half, t.rows, odd, j, k - 1),
    )
}

// Writes row j of the product at `at`, where the blocks are rows.
fn weave_row(
    p: u32,
    t: Results,
    even: &[u32],
    odd: &[u32],
    sums: &[u32],
    j: usize,
    z: &mut [u32],
    at: usize,
)
    requires { Thirds p t even.now odd.now sums.now × (t.turned ≡ false) × (j < t.rows) × (at + t.places ≤ length z.old) }
    ensures { z.new ≡ sets z.old at
        (tabulate t.places (woven_plane p t even.now odd.now sums.now j)) }
{
    let half = t.places / 2;
    let a = j * (t.places - half);
    let b = j * half;
    parity::weave(p, t.places, even, a, odd, b, sums, b, z, at);
}

// Writes column i of the product at `at`.
fn weave_column(
    p: u32,
    t: Results,
    even: &[u32],
    odd: &[u32],
    sums: &[u32],
    i: usize,
    z: &mut [u32],
    at: usize,
)
    requires { Thirds p t even.now odd.now sums.now × (i < t.places) × (at + t.rows ≤ length z.old) }
    ensures { z.new ≡ sets z.old at
        (tabulate t.rows (column (woven_plane p t even.now odd.now sums.now) i)) }
{
    let mut j = 0;
    while j < t.rows {
        z[at + j] = woven_place(p, t, even, odd, sums, j, i);
        j += 1;
    }
}

// Writes block l of the product at `at`.
fn weave_block(
    p: u32,
    t: Results,
    even: &[u32],
    odd: &[u32],
    sums: &[u32],
    l: usize,
    z: &mut [u32],
    at: usize,
)
    requires { Thirds p t even.now odd.now sums.now × (l < (blocks t).count) × (at + (blocks t).length ≤ length z.old) }
    ensures { z.new ≡ sets z.old at
        (tabulate (blocks t).length (facing t.turned (woven_plane p t even.now odd.now sums.now) l)) }
{
    if t.turned {
        weave_column(p, t, even, odd, sums, l, z, at);
    } else {
        weave_row(p, t, even, odd, sums, l, z, at);
    }
}

// Writes the product from the three products.
pub fn weave(p: u32, t: Results, even: &[u32], odd: &[u32], sums: &[u32], z: &mut [u32])
    requires { Thirds p t even.now odd.now sums.now × (t.rows * t.places ≤ length z.old) }
    ensures { z.new ≡ sets z.old 0
        (packed t.turned t.places t.rows (woven_plane p t even.now odd.now sums.now)) }
{
    let b = grids::results(t.turned, t.places, t.rows);
    let mut l = 0;
    while l < b.count {
        weave_block(p, t, even, odd, sums, l, z, l * b.length);
        l += 1;
    }
}
