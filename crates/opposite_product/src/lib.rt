// a(x, y) a(-x, y) modulo p, where a stands in rows of a lent buffer, from the squares of its even and its odd part (`grids`, `double_karatsuba`): only even powers of x do not
// vanish. The rows are read before the target is written.
#![tactic(auto)]

ghost use Rattle.std.specs.Prelude.{◌≡◌, ◌*◌, ◌≤◌};
ghost use Rattle.std.proofs.lemmas.List.Edits.{sets};
ghost use Rattle.definition.specs.KinoshitaLi.{plane};
ghost use Rattle.definition.specs.Lists.{ceil_div};
ghost use Rattle.double_parts.specs.Rows.{rows_at};
ghost use Rattle.opposite_product.specs.Opposite.{OppositeRoom, Sized, opposite_product};

// The `count` rows of r places from t on become the first rows of a(x, y) a(-x, y), where a stands in the rows from `at` on. The lists are room.
fn opposite_in(
    p: u32,
    r: usize,
    w: &mut [u32],
    at: usize,
    rows: usize,
    t: usize,
    count: usize,
    left: &mut [u64],
    even: &mut [u32],
    odd: &mut [u32],
)
    requires { OppositeRoom p r at rows t count w.old × Sized p r rows left.old even.old odd.old }
    ensures { w.new ≡ sets w.old t (plane r count (opposite_product p (rows_at r w.old at rows))) }
{
    let half = number::rounded_up(r, 2);
    let turned = half < rows;
    let e = double_parts::every_second(r, half, at, rows);
    let o = double_parts::every_second(r, r - half, at + 1, rows);
    grids::square(p, turned, e, w, half, count, left, even);
    grids::square(p, turned, o, w, half - 1, count, left, odd);
    double_rows::put(p, true, turned, r, half, half - 1, count, even, odd, w, t);
}

// The same for parts of at most 64 places. Lists are cleared when they are made, so that few places take short lists.
fn opposite_tiny(p: u32, r: usize, w: &mut [u32], at: usize, rows: usize, t: usize, count: usize)
    requires { OppositeRoom p r at rows t count w.old × (rows * ceil_div r 2 ≤ 64) }
    ensures { w.new ≡ sets w.old t (plane r count (opposite_product p (rows_at r w.old at rows))) }
{
    let mut left: [u64; 136] = [0; 136];
    let mut even: [u32; 128] = [0; 128];
    let mut odd: [u32; 128] = [0; 128];
    opposite_in(p, r, w, at, rows, t, count, &mut left, &mut even, &mut odd);
}

// The same for parts of at most 256 places.
fn opposite_small(p: u32, r: usize, w: &mut [u32], at: usize, rows: usize, t: usize, count: usize)
    requires { OppositeRoom p r at rows t count w.old × (rows * ceil_div r 2 ≤ 256) }
    ensures { w.new ≡ sets w.old t (plane r count (opposite_product p (rows_at r w.old at rows))) }
{
    let mut left: [u64; 392] = [0; 392];
    let mut even: [u32; 512] = [0; 512];
    let mut odd: [u32; 512] = [0; 512];
    opposite_in(p, r, w, at, rows, t, count, &mut left, &mut even, &mut odd);
}

// The same for parts of at most 4096 places.
fn opposite_large(p: u32, r: usize, w: &mut [u32], at: usize, rows: usize, t: usize, count: usize)
    requires { OppositeRoom p r at rows t count w.old × (rows * ceil_div r 2 ≤ 4096) }
    ensures { w.new ≡ sets w.old t (plane r count (opposite_product p (rows_at r w.old at rows))) }
{
    let half = number::rounded_up(r, 2);
    let turned = half < rows;
    let mut even: [u32; 8192] = [0; 8192];
    let mut odd: [u32; 8192] = [0; 8192];
    let e = double_parts::every_second(r, half, at, rows);
    let o = double_parts::every_second(r, r - half, at + 1, rows);
    let first = double_parts::results(turned, 0, count, half);
    let second = double_parts::results(turned, 0, count, half - 1);
    double_karatsuba::product(p, true, e, w, e, w, first, &mut even);
    double_karatsuba::product(p, true, o, w, o, w, second, &mut odd);
    double_rows::put(p, true, turned, r, half, half - 1, count, &even, &odd, w, t);
}

// The `count` rows of r places from t on become the first rows of a(x, y) a(-x, y), where a stands in the rows from `at` on.
pub fn opposite(p: u32, r: usize, w: &mut [u32], at: usize, rows: usize, t: usize, count: usize)
    requires { OppositeRoom p r at rows t count w.old × (rows * ceil_div r 2 ≤ 4096) }
    ensures { w.new ≡ sets w.old t (plane r count (opposite_product p (rows_at r w.old at rows))) }
{
    let places = rows * number::rounded_up(r, 2);
    if places <= 64 {
        opposite_tiny(p, r, w, at, rows, t, count);
    } else if places <= 256 {
        opposite_small(p, r, w, at, rows, t, count);
    } else {
        opposite_large(p, r, w, at, rows, t, count);
    }
}
