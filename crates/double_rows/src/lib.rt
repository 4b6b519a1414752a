// Rows of products in two variables, written from the products of their parts by even and odd powers of x, which stand in lists of blocks (`grids`).
#![tactic(auto)]

ghost use Rattle.std.specs.Prelude.{◌≡◌, ◌+◌, ◌-◌, ◌*◌, ◌<◌, ◌≤◌, length};
ghost use Rattle.std.proofs.lemmas.List.Edits.{sets};
ghost use Rattle.definition.specs.KinoshitaLi.{plane};
ghost use Rattle.definition.specs.Lists.{tabulate};
ghost use Rattle.double_rows.specs.Places.{Halves, Packed, Putting, opposite_place, packed_at, place_of, spread_place};

// The coefficient of y^j x^i in a list of blocks of m places of each of `count` rows.
pub fn packed(turned: bool, m: usize, count: usize, l: &[u32], j: usize, i: usize) -> u32
    requires { Packed m count j i × (count * m ≤ length l.now) }
    ensures { result ≡ packed_at turned m count l.now j i }
{
    if turned {
        return l[i * count + j];
    }
    l[j * m + i]
}

// The coefficient of y^j x^i in a(x, y) a(-x, y): the square of the even part of a, and that of the odd one, one place later, taken off.
fn opposite_place(
    p: u32,
    turned: bool,
    half: usize,
    count: usize,
    even: &[u32],
    odd: &[u32],
    j: usize,
    i: usize,
) -> u32
    requires { Halves p half (half - 1) count even.now odd.now × (j < count) × (i < half + half) }
    ensures { result ≡ opposite_place p turned half count even.now odd.now j i }
{
    let k = i / 2;
    if i % 2 == 1 {
        return 0;
    }
    let e = packed(turned, half, count, even, j, k);
    if k == 0 {
        return e;
    }
    residue::difference(p, e, packed(turned, half - 1, count, odd, j, k - 1))
}

// The coefficient of y^j x^i in a(x^2, y) b(x, y): that of the product with the even part of b, or with the odd one.
fn spread_place(
    p: u32,
    turned: bool,
    half: usize,
    rest: usize,
    count: usize,
    even: &[u32],
    odd: &[u32],
    j: usize,
    i: usize,
) -> u32
    requires { Halves p half rest count even.now odd.now × (j < count) × (i < half + rest) × (half ≤ rest + 1) × (rest ≤ half) }
    ensures { result ≡ spread_place turned half rest count even.now odd.now j i }
{
    let k = i / 2;
    if i % 2 == 1 {
        return packed(turned, rest, count, odd, j, k);
    }
    packed(turned, half, count, even, j, k)
}

// The coefficient of y^j x^i in either product.
fn place(
    p: u32,
    opposite: bool,
    turned: bool,
    r: usize,
    half: usize,
    rest: usize,
    count: usize,
    even: &[u32],
    odd: &[u32],
    j: usize,
    i: usize,
) -> u32
    requires { Putting p opposite r half rest count even.now odd.now × (j < count) × (i < r) }
    ensures { result ≡ place_of p opposite turned half rest count even.now odd.now j i }
{
    if opposite {
        return opposite_place(p, turned, half, count, even, odd, j, i);
    }
    spread_place(p, turned, half, rest, count, even, odd, j, i)
}

// Writes row j of the product, of r places, at t.
fn put_row(
    p: u32,
    opposite: bool,
    turned: bool,
    r: usize,
    half: usize,
    rest: usize,
    count: usize,
    even: &[u32],
    odd: &[u32],
    j: usize,
    w: &mut [u32],
    t: usize,
)
    requires { Putting p opposite r half rest count even.now odd.now × (j < count) × (t + r ≤ length w.old) }
    ensures { w.new ≡ sets w.old t (tabulate r (place_of p opposite turned half rest count even.now odd.now j)) }
{
    let mut i = 0;
    while i < r {
        w[t + i] = place(p, opposite, turned, r, half, rest, count, even, odd, j, i);
        i += 1;
    }
}

// Writes the rows of the product at t.
pub fn put(
    p: u32,
    opposite: bool,
    turned: bool,
    r: usize,
    half: usize,
    rest: usize,
    count: usize,
    even: &[u32],
    odd: &[u32],
    w: &mut [u32],
    t: usize,
)
    requires { Putting p opposite r half rest count even.now odd.now × (t + count * r ≤ length w.old) }
    ensures { w.new ≡ sets w.old t (plane r count (place_of p opposite turned half rest count even.now odd.now)) }
{
    let mut j = 0;
    while j < count {
        put_row(
            p,
            opposite,
            turned,
            r,
            half,
            rest,
            count,
            even,
            odd,
            j,
            w,
            t + j * r,
        );
        j += 1;
    }
}
