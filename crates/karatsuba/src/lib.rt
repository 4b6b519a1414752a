// Cut products of long lists modulo p by Karatsuba's rule. The even and the odd places of both factors and the sums of neighbours give three
// products of half the length, and these are woven into the product.
#![tactic(auto)]

ghost use Rattle.std.specs.Prelude.{◌≡◌, take};
ghost use Rattle.definition.specs.Substitution.{cut_product};
ghost use Rattle.karatsuba.specs.Room.{Room, Third, ThirdRoom};

// The `count` places of r from t on become the product of parts of x and of y (`parity::part`), which are made in u and v. What lies behind the first n
// places of x, y and z is room.
#[cycle(cut_product_third)]
fn third(
    p: u32,
    n: usize,
    which: usize,
    count: usize,
    x: &mut [u32],
    u: &mut [u32],
    y: &mut [u32],
    v: &mut [u32],
    z: &mut [u32],
    r: &mut [u32],
    t: usize,
)
    requires { ThirdRoom p n which count t x.old u.old y.old v.old z.old r.old }
    ensures { Third p n which count t x.old x.new y.old y.new r.old r.new }
{
    parity::part(p, n, which, count, x, u);
    parity::part(p, n, which, count, y, v);
    cut_product(
        p,
        count,
        u,
        &mut x[n..],
        v,
        &mut y[n..],
        &mut r[t..],
        &mut z[n..],
    );
}

// The first n places of z become the product of the first n places of x and of y modulo p, cut to n places. What lies behind them in these
// three lists and all of u, v and r is room. A loop reads one list and writes another, which compilers make faster.
#[cycle(cut_product_third)]
pub fn cut_product(
    p: u32,
    n: usize,
    x: &mut [u32],
    u: &mut [u32],
    y: &mut [u32],
    v: &mut [u32],
    z: &mut [u32],
    r: &mut [u32],
)
    requires { Room p n x.old u.old y.old v.old z.old r.old }
    ensures { take n z.new ≡ cut_product p n x.old y.old }
{
    if n <= 128 {
        schoolbook::cut_product(p, n, x, y, z);
        return;
    }
    let half = n / 2;
    let rounded = n - half;
    third(p, n, 0, rounded, x, u, y, v, z, r, 0);
    third(p, n, 1, half, x, u, y, v, z, r, rounded);
    third(p, n, 2, half, x, u, y, v, z, r, n);
    parity::weave(p, n, r, 0, r, rounded, r, n, z, 0);
}
