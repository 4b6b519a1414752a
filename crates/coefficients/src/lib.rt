// The product of two parts of a list modulo p, added to a third part, coefficient by coefficient: the quickest way for few places, and a way for any
// number of them.
#![tactic(auto)]

ghost use Rattle.std.specs.Prelude.{◌≡◌, ◌+◌, ◌≤◌, drop};
ghost use Rattle.std.proofs.lemmas.List.Edits.{sets};
ghost use Rattle.coefficients.specs.Operands.{Operands, added_product};

// The n places from t on become they + A B modulo p, cut to n places, where A and B are the n places from a and from b on; but only those from
// place `first` on are written.
pub fn add_from(p: u32, n: usize, w: &mut [u32], a: usize, b: usize, t: usize, first: usize)
    requires { Operands p n a b t w.old × (first ≤ n) }
    ensures { w.new ≡ sets w.old (t + first) (drop first (added_product p n a b t w.old)) }
{
    let end_a = a + n;
    let end_b = b + n;
    let mut k = first;
    while k < n {
        let c = w[t + k];
        w[t + k] = convolution::product_coefficient(p, c, &w[a..end_a], &w[b..end_b], k);
        k += 1;
    }
}
