// The denominator Q = 1 - y g of route 4, in rows of one lent buffer, row j for y^j.
#![tactic(auto)]

ghost use Rattle.std.specs.Prelude.{◌≡◌, ◌+◌, ◌*◌, ◌<◌, ◌≤◌, length};
ghost use Rattle.std.proofs.lemmas.List.Edits.{sets};
ghost use Rattle.definition.specs.KinoshitaLi.{denominator, plane};
ghost use Rattle.definition.specs.Lists.{tabulate};

// The coefficient of y^j x^i in 1 - y g.
fn denominator_place(p: u32, g: &[u32], j: usize, i: usize) -> u32
    requires { 0 < p }
    ensures { result ≡ denominator p g.now j i }
{
    if j == 0 {
        return if i == 0 { 1 } else { 0 };
    }
    if j == 1 {
        return bivariate::negative(p, route::place(g, i));
    }
    0
}

// Writes row j of 1 - y g, of n places, at t.
fn denominator_row(p: u32, n: usize, g: &[u32], j: usize, w: &mut [u32], t: usize)
    requires { (0 < p) × (t + n ≤ length w.old) }
    ensures { w.new ≡ sets w.old t (tabulate n (denominator p g.now j)) }
{
    let mut i = 0;
    while i < n {
        w[t + i] = denominator_place(p, g, j, i);
        i += 1;
    }
}

// Writes the first `count` rows of Q = 1 - y g, of n places each, from place 0 on.
pub fn denominator(p: u32, n: usize, count: usize, g: &[u32], w: &mut [u32])
    requires { (0 < p) × (count * n ≤ length w.old) }
    ensures { w.new ≡ sets w.old 0 (plane n count (denominator p g.now)) }
{
    let mut j = 0;
    while j < count {
        denominator_row(p, n, g, j, w, j * n);
        j += 1;
    }
}
