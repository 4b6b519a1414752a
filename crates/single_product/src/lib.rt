// Cut products of any number of places modulo p, on parts of one lent buffer: the product of two parts is added to a third, in the way that is
// quickest for so many places.
#![tactic(auto)]

ghost use Rattle.std.specs.Prelude.{◌≡◌, ◌≤◌};
ghost use Rattle.std.proofs.lemmas.List.Edits.{sets};
ghost use Rattle.added_product.specs.Added.{Added, Parts};
ghost use Rattle.coefficients.specs.Operands.{Operands, added_product};

// By halves for at most 256 places. Lists are cleared when they are made, so that few places take short lists.
fn add_up_to_256(p: u32, n: usize, w: &mut [u32], a: usize, b: usize, t: usize)
    requires { Parts p n a b t w.old × (n ≤ 256) }
    ensures { Added p n a b t w.old w.new }
{
    let mut x: [u32; 384] = [0; 384];
    let mut u: [u32; 224] = [0; 224];
    let mut y: [u32; 384] = [0; 384];
    let mut v: [u32; 224] = [0; 224];
    let mut z: [u32; 544] = [0; 544];
    let mut r: [u32; 544] = [0; 544];
    added_product::add_by_halves(
        p, n, w, a, b, t, &mut x, &mut u, &mut y, &mut v, &mut z, &mut r,
    );
}

// The same for at most 1024 places.
fn add_up_to_1024(p: u32, n: usize, w: &mut [u32], a: usize, b: usize, t: usize)
    requires { Parts p n a b t w.old × (n ≤ 1024) }
    ensures { Added p n a b t w.old w.new }
{
    let mut x: [u32; 1536] = [0; 1536];
    let mut u: [u32; 896] = [0; 896];
    let mut y: [u32; 1536] = [0; 1536];
    let mut v: [u32; 896] = [0; 896];
    let mut z: [u32; 2176] = [0; 2176];
    let mut r: [u32; 2176] = [0; 2176];
    added_product::add_by_halves(
        p, n, w, a, b, t, &mut x, &mut u, &mut y, &mut v, &mut z, &mut r,
    );
}

// The same for at most 4096 places.
fn add_up_to_4096(p: u32, n: usize, w: &mut [u32], a: usize, b: usize, t: usize)
    requires { Parts p n a b t w.old }
    ensures { Added p n a b t w.old w.new }
{
    let mut x: [u32; 6144] = [0; 6144];
    let mut u: [u32; 3584] = [0; 3584];
    let mut y: [u32; 6144] = [0; 6144];
    let mut v: [u32; 3584] = [0; 3584];
    let mut z: [u32; 8704] = [0; 8704];
    let mut r: [u32; 8704] = [0; 8704];
    added_product::add_by_halves(
        p, n, w, a, b, t, &mut x, &mut u, &mut y, &mut v, &mut z, &mut r,
    );
}

// The n places from t on become they + A B modulo p, cut to n places, where A and B are the n places from a and from b on, in the way that is
// quickest for so many. Above 4096 places the first half of them, rounded to a multiple of 4096,
// is taken this way, so that in the end the first 4096 are, and the rest coefficient by coefficient. The lists of the callees are not part of
// this function's own frame: the compiler does not inline functions with large lists into one that calls itself. It must call itself with a
// number that is not known beforehand: with 4096 the compiler makes a copy for that number, and the call of itself is gone.
pub fn add_product(p: u32, n: usize, w: &mut [u32], a: usize, b: usize, t: usize)
    requires { Operands p n a b t w.old }
    ensures { w.new ≡ sets w.old t (added_product p n a b t w.old) }
{
    if n <= 20 {
        coefficients::add_from(p, n, w, a, b, t, 0);
    } else if n <= 128 {
        added_product::add_by_rows(p, n, w, a, b, t);
    } else if n <= 256 {
        add_up_to_256(p, n, w, a, b, t);
    } else if n <= 1024 {
        add_up_to_1024(p, n, w, a, b, t);
    } else if n <= 4096 {
        add_up_to_4096(p, n, w, a, b, t);
    } else {
        let front = (n + 4095) / 8192 * 4096;
        add_product(p, front, w, a, b, t);
        coefficients::add_from(p, n, w, a, b, t, front);
    }
}
