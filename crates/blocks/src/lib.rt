// Products of polynomials in two variables, on lists of blocks: a block holds the coefficients of one power of the outer variable, and the inner
// loops run along it. A list of blocks begins with eight zeros, and eight zeros stand behind each block. A result is summed up over all pairs of
// blocks.
#![tactic(auto)]

ghost use Rattle.std.specs.Prelude.{◌≡◌, ◌+◌, ◌-◌, ◌*◌, ◌%◌, ◌<◌, ◌≤◌, ◌^◌, length};
ghost use Rattle.summed_product.specs.Sums.{Sums};
ghost use Rattle.summed_product.specs.Terms.{Added};
ghost use Rattle.blocks.specs.Blocks.{Changed, Doubled, Factors, Pairs, Rooms, Squared, blocks_of, pairs_sum, part_of, result_at, twice_pairs};

use summed_product::Part;

// So many blocks, of so many places each.
#[derive(Clone, Copy)]
pub struct Blocks {
    pub count: usize,
    pub length: usize,
}

// Block l of a list of blocks.
pub fn block(a: Blocks, l: usize) -> Part
    requires { 8 + l * (a.length + 8) + a.length < 2 ^ 64 }
    ensures { result ≡ part_of a l }
{
    Part {
        at: 8 + l * (a.length + 8),
        count: a.length,
    }
}

// Adds blocks l and j - l multiplied, for l from `from` on and below `to`: their places from `low` on, to the first n sums.
fn add_pairs(
    p: u32,
    a: Blocks,
    left: &[u64],
    b: Blocks,
    right: &[u64],
    j: usize,
    from: usize,
    to: usize,
    low: usize,
    n: usize,
    sums: &mut [u64],
    high: &mut [u64],
)
    requires { Pairs p a left.now b right.now j from to low n sums.old high.old }
    ensures { Added n ((to - from) * (a.length + 8)) sums.old sums.new high.old high.new
        (pairs_sum (blocks_of a left.now) (blocks_of b right.now) j from to low) }
{
    let mut l = from;
    while l < to {
        summed_product::add_product(
            p,
            left,
            block(a, l),
            right,
            block(b, j - l),
            low,
            n,
            sums,
            high,
        );
        l += 1;
    }
}

// Clears the first n sums.
fn clear(n: usize, sums: &mut [u64], high: &mut [u64])
    requires { (n ≤ length sums.old) × (n ≤ length high.old) }
    ensures { Sums n 0 sums.new high.new (λ t. 0) }
{
    let mut t = 0;
    while t < n {
        sums[t] = 0;
        high[t] = 0;
        t += 1;
    }
}

// Doubles the first n places modulo 2^64.
fn double(n: usize, l: &mut [u64])
    requires { n ≤ length l.old }
    ensures { Changed (λ v. (v + v) % 2 ^ 64) n l.old l.new }
{
    let mut t = 0;
    while t < n {
        let v = l[t];
        rows::add_to(l, t, v);
        t += 1;
    }
}

// Doubles the first n sums.
fn double_sums(n: usize, sums: &mut [u64], high: &mut [u64])
    requires { (n ≤ length sums.old) × (n ≤ length high.old) }
    ensures { Doubled n sums.old sums.new high.old high.new }
{
    double(n, sums);
    double(n, high);
}

// The first n sums become the places from `low` on of block j of the product.
fn sum_up_all(
    p: u32,
    a: Blocks,
    left: &[u64],
    b: Blocks,
    right: &[u64],
    j: usize,
    low: usize,
    n: usize,
    sums: &mut [u64],
    high: &mut [u64],
)
    requires { Factors p a left.now b right.now × Rooms j low n sums.old high.old }
    ensures { Sums n (2 ^ 14 - 1) sums.new high.new
        (result_at (blocks_of a left.now) (blocks_of b right.now) j low) }
{
    clear(n, sums, high);
    let from = number::excess(j + 1, b.count);
    let to = number::smaller(j + 1, a.count);
    add_pairs(p, a, left, b, right, j, from, to, low, n, sums, high);
}

// The first n sums become twice what blocks l and j - l multiplied add up to, for l from `from` on and below `to`.
fn sum_up_twice(
    p: u32,
    a: Blocks,
    left: &[u64],
    j: usize,
    from: usize,
    to: usize,
    low: usize,
    n: usize,
    sums: &mut [u64],
    high: &mut [u64],
)
    requires { Pairs p a left.now a left.now j from to low n sums.old high.old × (to ≤ from + a.count) }
    ensures { Sums n 10922 sums.new high.new
        (twice_pairs (blocks_of a left.now) j from to low) }
{
    clear(n, sums, high);
    add_pairs(p, a, left, a, left, j, from, to, low, n, sums, high);
    double_sums(n, sums, high);
}

// The same of a square: the pairs of two different blocks count twice.
fn sum_up_square(
    p: u32,
    a: Blocks,
    left: &[u64],
    j: usize,
    low: usize,
    n: usize,
    sums: &mut [u64],
    high: &mut [u64],
)
    requires { Factors p a left.now a left.now × Rooms j low n sums.old high.old }
    ensures { Sums n (2 ^ 14 - 1) sums.new high.new
        (result_at (blocks_of a left.now) (blocks_of a left.now) j low) }
{
    let from = number::excess(j + 1, a.count);
    let half = (j + 1) / 2;
    let to = number::smaller(j / 2 + 1, a.count);
    sum_up_twice(p, a, left, j, from, half, low, n, sums, high);
    add_pairs(p, a, left, a, left, j, half, to, low, n, sums, high);
}

// Either of them.
pub fn sum_up(
    p: u32,
    square: bool,
    a: Blocks,
    left: &[u64],
    b: Blocks,
    right: &[u64],
    j: usize,
    low: usize,
    n: usize,
    sums: &mut [u64],
    high: &mut [u64],
)
    requires { Factors p a left.now b right.now × Squared square a left.now b right.now × Rooms j low n sums.old high.old }
    ensures { Sums n (2 ^ 14 - 1) sums.new high.new
        (result_at (blocks_of a left.now) (blocks_of b right.now) j low) }
{
    if square {
        sum_up_square(p, a, left, j, low, n, sums, high);
    } else {
        sum_up_all(p, a, left, b, right, j, low, n, sums, high);
    }
}
