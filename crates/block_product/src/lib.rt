// Products of polynomials in two variables modulo p, on lists of blocks (`blocks`): the sums of at most 128 places of a result, and one remainder a
// place.
#![tactic(auto)]

ghost use Rattle.std.specs.Prelude.{◌≡◌, length};
ghost use Rattle.std.proofs.lemmas.List.Edits.{sets};
ghost use Rattle.definition.specs.Lists.{tabulate};
ghost use Rattle.blocks.specs.Blocks.{Factors, Rooms, Squared, blocks_of};
ghost use Rattle.block_product.specs.Results.{Target, Tiled, product_blocks, window_at};

use blocks::Blocks;

// z becomes the places from `low` on of block j of the product modulo p, at most 128.
fn tile(
    p: u32,
    square: bool,
    a: Blocks,
    left: &[u64],
    b: Blocks,
    right: &[u64],
    j: usize,
    low: usize,
    sums: &mut [u64],
    high: &mut [u64],
    z: &mut [u32],
)
    requires { Factors p a left.now b right.now × Squared square a left.now b right.now × Rooms j low (length z.old) sums.old high.old }
    ensures { z.new ≡ tabulate (length z.old)
        (window_at p (blocks_of a left.now) (blocks_of b right.now) j low) }
{
    let n = z.len();
    blocks::sum_up(p, square, a, left, b, right, j, low, n, sums, high);
    remainder::remainders(p, n, sums, high, z);
}

// z becomes the places from `low` on of block j of the product modulo p.
fn result(
    p: u32,
    square: bool,
    a: Blocks,
    left: &[u64],
    b: Blocks,
    right: &[u64],
    j: usize,
    low: usize,
    sums: &mut [u64],
    high: &mut [u64],
    z: &mut [u32],
)
    requires { Factors p a left.now b right.now × Squared square a left.now b right.now × Tiled j low (length z.old) sums.old high.old }
    ensures { z.new ≡ tabulate (length z.old)
        (window_at p (blocks_of a left.now) (blocks_of b right.now) j low) }
{
    let n = z.len();
    let mut k = 0;
    while k < n {
        let end = number::smaller(k + 128, n);
        tile(
            p,
            square,
            a,
            left,
            b,
            right,
            j,
            low + k,
            sums,
            high,
            &mut z[k..end],
        );
        k = end;
    }
}

// The first places of z become blocks of the product modulo p, one after the other: t.count blocks from block `first` on, and of each the t.length
// places from `low` on. Where it is a square the factors are the same.
pub fn multiply(
    p: u32,
    square: bool,
    a: Blocks,
    left: &[u64],
    b: Blocks,
    right: &[u64],
    first: usize,
    low: usize,
    t: Blocks,
    z: &mut [u32],
)
    requires { Factors p a left.now b right.now × Squared square a left.now b right.now × Target first low t z.old }
    ensures { z.new ≡ sets z.old 0
        (product_blocks p (blocks_of a left.now) (blocks_of b right.now) first low t) }
{
    let mut sums: [u64; 128] = [0; 128];
    let mut high: [u64; 128] = [0; 128];
    let mut k = 0;
    while k < t.count {
        let from = k * t.length;
        let to = from + t.length;
        result(
            p,
            square,
            a,
            left,
            b,
            right,
            first + k,
            low,
            &mut sums,
            &mut high,
            &mut z[from..to],
        );
        k += 1;
    }
}
