// a(x^2, y) b(x, y) modulo p, where both stand in rows of a lent buffer: its even and odd powers of x come from those of b (`grids`, `double_karatsuba`). The rows are read before
// the target is written.
#![tactic(auto)]

ghost use Rattle.std.specs.Prelude.{◌≡◌, ◌*◌, ◌≤◌};
ghost use Rattle.std.proofs.lemmas.List.Edits.{sets};
ghost use Rattle.definition.specs.KinoshitaLi.{plane};
ghost use Rattle.definition.specs.Lists.{ceil_div};
ghost use Rattle.spread_product.specs.Spread.{SpreadRoom, SpreadSized, spread_product};

// The `count` rows of r places from t on become the rows from `low` on of the product of a polynomial in x^2 and y, in the rows from a on, and of one in x and y, in the
// rows from b on. The lists are room.
fn spread_in(
    p: u32,
    r: usize,
    w: &mut [u32],
    a: usize,
    rows: usize,
    b: usize,
    more: usize,
    low: usize,
    t: usize,
    count: usize,
    left: &mut [u64],
    right: &mut [u64],
    even: &mut [u32],
    odd: &mut [u32],
)
    requires { SpreadRoom p r a rows b more low t count w.old × SpreadSized p r more left.old right.old even.old odd.old }
    ensures { w.new ≡ sets w.old t (plane r count (spread_product p r w.old a rows b more low)) }
{
    let half = number::rounded_up(r, 2);
    let rest = r - half;
    let turned = half < more;
    let e = double_parts::every_second(r, half, b, more);
    let u = double_parts::every_second(r, half, a, rows);
    grids::product(p, turned, e, w, u, w, low, half, count, left, right, even);
    let o = double_parts::every_second(r, rest, b + 1, more);
    let v = double_parts::every_second(r, rest, a, rows);
    grids::product(p, turned, o, w, v, w, low, rest, count, left, right, odd);
    double_rows::put(p, false, turned, r, half, rest, count, even, odd, w, t);
}

// The same for parts of at most 64 places. Lists are cleared when they are made, so that few places take short lists.
fn spread_tiny(
    p: u32,
    r: usize,
    w: &mut [u32],
    a: usize,
    rows: usize,
    b: usize,
    more: usize,
    low: usize,
    t: usize,
    count: usize,
)
    requires { SpreadRoom p r a rows b more low t count w.old × (more * ceil_div r 2 ≤ 64) }
    ensures { w.new ≡ sets w.old t (plane r count (spread_product p r w.old a rows b more low)) }
{
    let mut left: [u64; 136] = [0; 136];
    let mut right: [u64; 264] = [0; 264];
    let mut even: [u32; 64] = [0; 64];
    let mut odd: [u32; 64] = [0; 64];
    spread_in(
        p, r, w, a, rows, b, more, low, t, count, &mut left, &mut right, &mut even, &mut odd,
    );
}

// The same for parts of at most 256 places.
fn spread_small(
    p: u32,
    r: usize,
    w: &mut [u32],
    a: usize,
    rows: usize,
    b: usize,
    more: usize,
    low: usize,
    t: usize,
    count: usize,
)
    requires { SpreadRoom p r a rows b more low t count w.old × (more * ceil_div r 2 ≤ 256) }
    ensures { w.new ≡ sets w.old t (plane r count (spread_product p r w.old a rows b more low)) }
{
    let mut left: [u64; 392] = [0; 392];
    let mut right: [u64; 776] = [0; 776];
    let mut even: [u32; 256] = [0; 256];
    let mut odd: [u32; 256] = [0; 256];
    spread_in(
        p, r, w, a, rows, b, more, low, t, count, &mut left, &mut right, &mut even, &mut odd,
    );
}

// The same for parts of at most 4096 places.
fn spread_large(
    p: u32,
    r: usize,
    w: &mut [u32],
    a: usize,
    rows: usize,
    b: usize,
    more: usize,
    low: usize,
    t: usize,
    count: usize,
)
    requires { SpreadRoom p r a rows b more low t count w.old × (more * ceil_div r 2 ≤ 4096) }
    ensures { w.new ≡ sets w.old t (plane r count (spread_product p r w.old a rows b more low)) }
{
    let half = number::rounded_up(r, 2);
    let rest = r - half;
    let turned = half < more;
    let mut even: [u32; 4096] = [0; 4096];
    let mut odd: [u32; 4096] = [0; 4096];
    let e = double_parts::every_second(r, half, b, more);
    let u = double_parts::every_second(r, half, a, rows);
    let first = double_parts::results(turned, low, count, half);
    double_karatsuba::product(p, false, e, w, u, w, first, &mut even);
    let o = double_parts::every_second(r, rest, b + 1, more);
    let v = double_parts::every_second(r, rest, a, rows);
    let second = double_parts::results(turned, low, count, rest);
    double_karatsuba::product(p, false, o, w, v, w, second, &mut odd);
    double_rows::put(p, false, turned, r, half, rest, count, &even, &odd, w, t);
}

// The `count` rows of r places from t on become the rows from `low` on of the product of a polynomial in x^2 and y, in the rows from a on, and of one in x and y, in the
// rows from b on.
pub fn spread(
    p: u32,
    r: usize,
    w: &mut [u32],
    a: usize,
    rows: usize,
    b: usize,
    more: usize,
    low: usize,
    t: usize,
    count: usize,
)
    requires { SpreadRoom p r a rows b more low t count w.old × (more * ceil_div r 2 ≤ 4096) }
    ensures { w.new ≡ sets w.old t (plane r count (spread_product p r w.old a rows b more low)) }
{
    let places = more * number::rounded_up(r, 2);
    if places <= 64 {
        spread_tiny(p, r, w, a, rows, b, more, low, t, count);
    } else if places <= 256 {
        spread_small(p, r, w, a, rows, b, more, low, t, count);
    } else {
        spread_large(p, r, w, a, rows, b, more, low, t, count);
    }
}
