// The product of two parts of a list modulo p, added to a third part, at most 4096 places each: the n places from t on become they + A B
// modulo p, cut to n places, where A and B are the n places from a and from b on. The factors are read before the target is written, so
// that the parts may lie in any way. There is a function for each range of lengths, and the caller chooses.
#![tactic(auto)]

ghost use Rattle.std.specs.Prelude.{◌≡◌, ◌+◌, ◌<◌, ◌≤◌, length};
ghost use Rattle.std.proofs.lemmas.List.Edits.{sets};
ghost use Rattle.buffer.specs.Segments.{segment};
ghost use Rattle.definition.specs.Substitution.{cut_sum};
ghost use Rattle.karatsuba.specs.Room.{Lists};
ghost use Rattle.parity.specs.Halves.{Residues};
ghost use Rattle.schoolbook.specs.ByRows.{residue_list};
ghost use Rattle.added_product.specs.Added.{Added, Parts};

// The first n places of z become those of x modulo p.
fn load(p: u32, n: usize, x: &[u32], z: &mut [u32])
    requires { (0 < p) × (n ≤ length x.now) × (n ≤ length z.old) }
    ensures { z.new ≡ sets z.old 0 (residue_list p n x.now) }
{
    let mut i = 0;
    while i < n {
        z[i] = residue::reduced(p, x[i]);
        i += 1;
    }
}

// Adds the first n places of z, which are residues, to the n places of w from t on.
fn add_places(p: u32, n: usize, z: &[u32], w: &mut [u32], t: usize)
    requires { (0 < p) × (n ≤ length z.now) × Residues p n z.now × (t + n ≤ length w.old) }
    ensures { w.new ≡ sets w.old t (cut_sum p n (segment w.old t n) z.now) }
{
    let mut k = 0;
    while k < n {
        let c = residue::reduced(p, w[t + k]);
        w[t + k] = residue::sum(p, c, z[k]);
        k += 1;
    }
}

// For at most 128 places: the product by rows.
pub fn add_by_rows(p: u32, n: usize, w: &mut [u32], a: usize, b: usize, t: usize)
    requires { Parts p n a b t w.old × (n ≤ 128) }
    ensures { Added p n a b t w.old w.new }
{
    let mut z: [u32; 128] = [0; 128];
    let end_a = a + n;
    let end_b = b + n;
    schoolbook::cut_product(p, n, &w[a..end_a], &w[b..end_b], &mut z);
    add_places(p, n, &z, w, t);
}

// For more places: the product by halves, in the six lists.
pub fn add_by_halves(
    p: u32,
    n: usize,
    w: &mut [u32],
    a: usize,
    b: usize,
    t: usize,
    x: &mut [u32],
    u: &mut [u32],
    y: &mut [u32],
    v: &mut [u32],
    z: &mut [u32],
    r: &mut [u32],
)
    requires { Parts p n a b t w.old × Lists n x.old u.old y.old v.old z.old r.old }
    ensures { Added p n a b t w.old w.new }
{
    let end_a = a + n;
    let end_b = b + n;
    load(p, n, &w[a..end_a], x);
    load(p, n, &w[b..end_b], y);
    karatsuba::cut_product(p, n, x, u, y, v, z, r);
    add_places(p, n, z, w, t);
}
