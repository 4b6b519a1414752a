// Rows of the multiplication by hand: row j is place j of one factor times the other factor. Some rows are added in one pass over the places.
// The sum of a place is exact: it is kept modulo 2^64, and beside it the sum of the high halves of what was added.
#![tactic(auto)]

ghost use Rattle.std.specs.Prelude.{◌≡◌, ◌+◌, ◌%◌, ◌^◌, ◌<◌, length, slice_index, slice_set};
ghost use Rattle.rows.specs.Rows.{Factors, FourBelow, IsFour, IsTotal, Passed, PlacesBelow, four_products};

// Four neighbouring places of a list.
#[derive(Clone, Copy)]
struct Four {
    a: u64,
    b: u64,
    c: u64,
    d: u64,
}

// A number in two parts: the number modulo 2^64, and a count of 2^32 in it that is a little too small.
#[derive(Clone, Copy)]
struct Total {
    wrapped: u64,
    high: u64,
}

// Places i to i + 3.
fn places(x: &[u64], i: usize) -> Four
    requires { i + 3 < length x.now }
    ensures { IsFour result x.now i }
{
    Four {
        a: x[i],
        b: x[i + 1],
        c: x[i + 2],
        d: x[i + 3],
    }
}

// The sum of four products of numbers below 2^31: it fits 64 bits.
fn sum_of_four(f: Four, y: &[u64], e: usize) -> u64
    requires { FourBelow (2 ^ 31) f × PlacesBelow (2 ^ 31) y.now e }
    ensures { result ≡ four_products f y.now e }
{
    residue::times(f.a, y[e + 3])
        + residue::times(f.b, y[e + 2])
        + residue::times(f.c, y[e + 1])
        + residue::times(f.d, y[e])
}

// Eight products of numbers below 2^31, in two sums of four.
fn eight_products(f: Four, g: Four, y: &[u64], e: usize) -> Total
    requires { FourBelow (2 ^ 31) f × FourBelow (2 ^ 31) g × PlacesBelow (2 ^ 31) y.now e × PlacesBelow (2 ^ 31) y.now (e + 4) }
    ensures { IsTotal 8 (four_products f y.now (e + 4) + four_products g y.now e) result }
{
    let v = sum_of_four(f, y, e + 4);
    let w = sum_of_four(g, y, e);
    Total {
        wrapped: std::num::wrapping_add_u64(v, w),
        high: v / 4294967296 + w / 4294967296,
    }
}

// Four products of 32-bit numbers, each counted by itself.
fn four_products(f: Four, y: &[u64], e: usize) -> Total
    requires { FourBelow (2 ^ 32) f × PlacesBelow (2 ^ 32) y.now e }
    ensures { IsTotal 4 (four_products f y.now e) result }
{
    let a = residue::times(f.a, y[e + 3]);
    let b = residue::times(f.b, y[e + 2]);
    let c = residue::times(f.c, y[e + 1]);
    let d = residue::times(f.d, y[e]);
    Total {
        wrapped: std::num::wrapping_add_u64(
            std::num::wrapping_add_u64(a, b),
            std::num::wrapping_add_u64(c, d),
        ),
        high: a / 4294967296 + b / 4294967296 + c / 4294967296 + d / 4294967296,
    }
}

// Adds v to place t modulo 2^64.
pub fn add_to(l: &mut [u64], t: usize, v: u64)
    requires { t < length l.old }
    ensures { l.new ≡ slice_set l.old t ((slice_index l.old t + v) % 2 ^ 64) }
{
    l[t] = std::num::wrapping_add_u64(l[t], v);
}

// Adds eight rows at the places from `from` on and below `to`, where the factors are below 2^31: the places of x from i on, each times y. What place `from` is
// added ends at place e of y.
pub fn add_eight_rows(
    from: usize,
    to: usize,
    x: &[u64],
    i: usize,
    y: &[u64],
    e: usize,
    sums: &mut [u64],
    high: &mut [u64],
)
    requires { Factors (2 ^ 31) 8 from to x.now i y.now e sums.old high.old }
    ensures { Passed 8 from to x.now i y.now e sums.old sums.new high.old high.new }
{
    let f = places(x, i);
    let g = places(x, i + 4);
    let mut t = from;
    while t < to {
        let s = eight_products(f, g, y, e + (t - from));
        add_to(sums, t, s.wrapped);
        add_to(high, t, s.high);
        t += 1;
    }
}

// Adds four rows in the same way, whatever the factors.
pub fn add_four_rows(
    from: usize,
    to: usize,
    x: &[u64],
    i: usize,
    y: &[u64],
    e: usize,
    sums: &mut [u64],
    high: &mut [u64],
)
    requires { Factors (2 ^ 32) 4 from to x.now i y.now e sums.old high.old }
    ensures { Passed 4 from to x.now i y.now e sums.old sums.new high.old high.new }
{
    let f = places(x, i);
    let mut t = from;
    while t < to {
        let s = four_products(f, y, e + (t - from));
        add_to(sums, t, s.wrapped);
        add_to(high, t, s.high);
        t += 1;
    }
}
