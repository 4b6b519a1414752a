// The product of two lists modulo p, cut to at most 128 places, as by hand: the rows are added to exact sums (`rows`), and the remainder of a
// place is taken once.
#![tactic(auto)]

ghost use Rattle.std.specs.Prelude.{◌≡◌, ◌+◌, ◌<◌, ◌≤◌, length};
ghost use Rattle.std.proofs.lemmas.List.Edits.{sets};
ghost use Rattle.definition.specs.Substitution.{cut_product};
ghost use Rattle.schoolbook.specs.ByRows.{residue_list};

use summed_product::Part;

// The n places from `at` on become those of x modulo p.
fn widen(p: u32, n: usize, x: &[u32], at: usize, into: &mut [u64])
    requires { (0 < p) × (n ≤ length x.now) × (at + n ≤ length into.old) }
    ensures { into.new ≡ sets into.old at (residue_list p n x.now) }
{
    let mut i = 0;
    while i < n {
        into[at + i] = residue::wide(residue::reduced(p, x[i]));
        i += 1;
    }
}

// The first n places of z become the product of x and y modulo p, cut to n places.
pub fn cut_product(p: u32, n: usize, x: &[u32], y: &[u32], z: &mut [u32])
    requires { (0 < p) × (n ≤ 128) × (n ≤ length x.now) × (n ≤ length y.now) × (n ≤ length z.old) }
    ensures { z.new ≡ sets z.old 0 (cut_product p n x.now y.now) }
{
    let mut left: [u64; 144] = [0; 144];
    let mut right: [u64; 144] = [0; 144];
    let mut sums: [u64; 128] = [0; 128];
    let mut high: [u64; 128] = [0; 128];
    widen(p, n, x, 8, &mut left);
    widen(p, n, y, 8, &mut right);
    let part = Part { at: 8, count: n };
    summed_product::add_product(p, &left, part, &right, part, 0, n, &mut sums, &mut high);
    remainder::remainders(p, n, &sums, &high, z);
}
