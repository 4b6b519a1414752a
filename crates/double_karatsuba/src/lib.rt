// Products of parts of polynomials in x and y modulo p: by blocks (`grids`), or, of long parts, by Karatsuba's rule. The even and the odd powers of x of both
// factors and the sums of the two give three products with half the places, and these are woven into the product (`double_parity`).
#![tactic(auto)]

ghost use Rattle.std.specs.Prelude.{false, ◌≡◌, ◌*◌, ◌<◌, ◌≤◌, ◌^◌};
ghost use Rattle.grids.specs.Parts.{block_places};
ghost use Rattle.double_karatsuba.specs.Product.{Fits, Long, Multiplied, Multiplying};

use double_parity::{Results, even_half, fold, folded_part, odd_half, weave};
use grids::Grid;

// Parts with more places are halved.
const LONGEST_BY_BLOCKS: usize = 1100;

// By blocks, in short lists: the first places of z become the results.
fn by_short_blocks(
    p: u32,
    square: bool,
    g: Grid,
    w: &[u32],
    h: Grid,
    v: &[u32],
    t: Results,
    z: &mut [u32],
)
    requires { Multiplying p square g w.now h v.now t z.old × Fits t.turned g h 1616 }
    ensures { Multiplied p g w.now h v.now t z.old z.new }
{
    let mut left: [u64; 1624] = [0; 1624];
    if square {
        grids::square(p, t.turned, g, w, t.places, t.rows, &mut left, z);
        return;
    }
    let mut right: [u64; 3240] = [0; 3240];
    grids::product(
        p, t.turned, g, w, h, v, t.low, t.places, t.rows, &mut left, &mut right, z,
    );
}

// By blocks, in lists for all that is required.
fn by_long_blocks(
    p: u32,
    square: bool,
    g: Grid,
    w: &[u32],
    h: Grid,
    v: &[u32],
    t: Results,
    z: &mut [u32],
)
    requires { Multiplying p square g w.now h v.now t z.old }
    ensures { Multiplied p g w.now h v.now t z.old z.new }
{
    let mut left: [u64; 4616] = [0; 4616];
    if square {
        grids::square(p, t.turned, g, w, t.places, t.rows, &mut left, z);
        return;
    }
    let mut right: [u64; 9224] = [0; 9224];
    grids::product(
        p, t.turned, g, w, h, v, t.low, t.places, t.rows, &mut left, &mut right, z,
    );
}

// The places that a part takes in blocks, with eight zeros behind each.
fn block_places(turned: bool, g: Grid) -> usize
    requires { (g.length ≤ 2 ^ 30) × (g.count ≤ 2 ^ 30) × (block_places turned g.length g.count < 2 ^ 64) }
    ensures { result ≡ block_places turned g.length g.count }
{
    if turned {
        g.length * (g.count + 8)
    } else {
        g.count * (g.length + 8)
    }
}

// By blocks: the first places of z become the results. Lists are cleared when they are made, so that short parts take short lists.
fn by_blocks(
    p: u32,
    square: bool,
    g: Grid,
    w: &[u32],
    h: Grid,
    v: &[u32],
    t: Results,
    z: &mut [u32],
)
    requires { Multiplying p square g w.now h v.now t z.old }
    ensures { Multiplied p g w.now h v.now t z.old z.new }
{
    if block_places(t.turned, g) <= 1616 {
        if block_places(t.turned, h) <= 3232 {
            by_short_blocks(p, square, g, w, h, v, t, z);
            return;
        }
    }
    by_long_blocks(p, square, g, w, h, v, t, z);
}

// Whether a part has few places, or too few in each row to be halved.
fn is_short(g: Grid, t: Results) -> bool
    requires { g.count * g.length < 2 ^ 64 }
    ensures { result ≡ false → Long g t }
{
    if g.length < 16 {
        return true;
    }
    if t.places < 16 {
        return true;
    }
    g.count * g.length <= LONGEST_BY_BLOCKS
}

// The first places of z become the results: rows of the product of g, a part of w, and h, a part of v. Where it is a square the two are the same.
pub fn product(
    p: u32,
    square: bool,
    g: Grid,
    w: &[u32],
    h: Grid,
    v: &[u32],
    t: Results,
    z: &mut [u32],
)
    requires { Multiplying p square g w.now h v.now t z.old }
    ensures { Multiplied p g w.now h v.now t z.old z.new }
{
    if is_short(g, t) {
        by_blocks(p, square, g, w, h, v, t, z);
        return;
    }
    let mut even: [u32; 4352] = [0; 4352];
    let mut odd: [u32; 4352] = [0; 4352];
    let mut sums: [u32; 4352] = [0; 4352];
    let mut first: [u32; 4896] = [0; 4896];
    let mut second: [u32; 4896] = [0; 4896];
    let up = double_parity::upper_half(t);
    let down = double_parity::lower_half(t);
    product(p, square, even_half(g), w, even_half(h), v, up, &mut even);
    product(p, square, odd_half(g), w, odd_half(h), v, down, &mut odd);
    fold(p, g, w, &mut first);
    fold(p, h, v, &mut second);
    product(
        p,
        square,
        folded_part(g),
        &first,
        folded_part(h),
        &second,
        down,
        &mut sums,
    );
    weave(p, t, &even, &odd, &sums, z);
}
