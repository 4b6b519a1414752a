// Parts of polynomials in x and y, read from a lent buffer into lists of blocks, and products of two such parts. A part is a grid: places of some rows,
// at equal distances. A block is a row of it, or, where there are more rows than places in them, a column: the inner loops run along the longer
// direction.
#![tactic(auto)]

ghost use Rattle.std.specs.Prelude.{◌≡◌, ℕ, ◌+◌, ◌*◌, ◌<◌, ◌≤◌, length};
ghost use Rattle.std.proofs.lemmas.List.Edits.{sets};
ghost use Rattle.definition.specs.KinoshitaLi.{plane};
ghost use Rattle.definition.specs.Lists.{tabulate};
ghost use Rattle.grids.specs.Grid.{Readable, block_place, grid_place};
ghost use Rattle.grids.specs.Parts.{Few, ProductPut, Room, Source, SquarePut, grid_at, orient, results_of};

use blocks::Blocks;

// Blocks in a buffer: block l begins at at + l outer, and its places lie `inner` apart.
#[derive(Clone, Copy)]
pub struct Grid {
    pub at: usize,
    pub outer: usize,
    pub inner: usize,
    pub count: usize,
    pub length: usize,
}

// Place k of a block of n places modulo p, the first at `at` and each one `inner` further on. Behind them it is 0.
fn block_place(p: u32, n: usize, w: &[u32], at: usize, inner: usize, k: usize) -> u64
    requires { (0 < p) × (k < n → at + k * inner < length w.now) }
    ensures { result ≡ block_place p n w.now at inner k }
{
    if k < n {
        residue::wide(residue::reduced(p, w[at + k * inner]))
    } else {
        0
    }
}

// The places from t on become those of the block, and eight zeros.
fn load_block(p: u32, n: usize, w: &[u32], at: usize, inner: usize, into: &mut [u64], t: usize)
    requires { (0 < p) × ((k : ℕ) → k < n → at + k * inner < length w.now) × (t + (n + 8) ≤ length into.old) }
    ensures { into.new ≡ sets into.old t (tabulate (n + 8) (block_place p n w.now at inner)) }
{
    let end = n + 8;
    let mut k = 0;
    while k < end {
        into[t + k] = block_place(p, n, w, at, inner, k);
        k += 1;
    }
}

// The places from 8 on become the blocks, eight zeros behind each.
fn load(p: u32, w: &[u32], g: Grid, into: &mut [u64])
    requires { (0 < p) × Readable g w.now × (8 + g.count * (g.length + 8) ≤ length into.old) }
    ensures { into.new ≡ sets into.old 8 (plane (g.length + 8) g.count (grid_place p w.now g)) }
{
    let mut l = 0;
    while l < g.count {
        load_block(
            p,
            g.length,
            w,
            g.at + l * g.outer,
            g.inner,
            into,
            8 + l * (g.length + 8),
        );
        l += 1;
    }
}

// The same places, its columns for its rows where it is turned.
fn oriented(turned: bool, g: Grid) -> Grid
    ensures { result ≡ orient turned g }
{
    if turned {
        return Grid {
            at: g.at,
            outer: g.inner,
            inner: g.outer,
            count: g.length,
            length: g.count,
        };
    }
    g
}

// The blocks of m places of each of `count` rows.
pub fn results(turned: bool, m: usize, count: usize) -> Blocks
    ensures { result ≡ results_of turned m count }
{
    if turned {
        return Blocks {
            count: m,
            length: count,
        };
    }
    Blocks { count, length: m }
}

// The first places of z become m places of each of the first `count` rows of the square of a part.
pub fn square(
    p: u32,
    turned: bool,
    g: Grid,
    w: &[u32],
    m: usize,
    count: usize,
    left: &mut [u64],
    z: &mut [u32],
)
    requires { Source p turned g w.now left.old × Few turned g.length g.count × Room turned m count 0 z.old }
    ensures { SquarePut p turned m count (grid_at g w.now) z.old z.new left.new }
{
    let part = oriented(turned, g);
    load(p, w, part, left);
    let a = Blocks {
        count: part.count,
        length: part.length,
    };
    block_product::multiply(
        p,
        true,
        a,
        left,
        a,
        left,
        0,
        0,
        results(turned, m, count),
        z,
    );
}

// The first places of z become m places of each of `count` rows, from row `low` on, of the product of two parts.
pub fn product(
    p: u32,
    turned: bool,
    g: Grid,
    w: &[u32],
    h: Grid,
    v: &[u32],
    low: usize,
    m: usize,
    count: usize,
    left: &mut [u64],
    right: &mut [u64],
    z: &mut [u32],
)
    requires { Source p turned g w.now left.old × Few turned g.length g.count × Source p turned h v.now right.old
        × Room turned m count low z.old }
    ensures { ProductPut p turned m count low (grid_at g w.now) (grid_at h v.now)
        z.old z.new left.new right.new }
{
    let first = oriented(turned, g);
    let second = oriented(turned, h);
    load(p, w, first, left);
    load(p, v, second, right);
    let a = Blocks {
        count: first.count,
        length: first.length,
    };
    let b = Blocks {
        count: second.count,
        length: second.length,
    };
    let t = results(turned, m, count);
    if turned {
        block_product::multiply(p, false, a, left, b, right, 0, low, t, z);
    } else {
        block_product::multiply(p, false, a, left, b, right, low, 0, t, z);
    }
}
