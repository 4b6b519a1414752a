// Cut products modulo p, on parts of one lent buffer. Each gives back the number of places that it is cut to, as a weight, which only this crate
// makes: a route's weight can then be nothing but a sum of what products gave back.
#![tactic(auto)]

ghost use Rattle.std.specs.Prelude.{◌≡◌, ◌+◌, ◌*◌, ◌<◌, ◌≤◌, ◌^◌};
ghost use Rattle.definition.specs.Lists.{ceil_div};
ghost use Rattle.opposite_product.specs.Opposite.{OppositeRoom};
ghost use Rattle.spread_product.specs.Spread.{SpreadRoom};
ghost use Rattle.product.specs.Double.{MultipliedOpposite, MultipliedRows};
ghost use Rattle.product.specs.Single.{Multiplied, MultipliedAdd, Operands};

// A polynomial in x and y in a buffer: `count` rows, one after the other from place `at` on, row j for y^j. Later rows are zero.
#[derive(Clone, Copy)]
pub struct Rows {
    pub at: usize,
    pub count: usize,
}

// The weight of a composition (01's term), or a part of it: the sum, over some products, of the places that each is cut to.
#[derive(Clone, Copy)]
pub struct Weight {
    places: u64,
}

impl Weight {
    // The weight of no product: a sum begins with it.
    pub fn none() -> Weight
        ensures { result.places ≡ 0 }
    {
        Weight { places: 0 }
    }

    // The weight of these products and of more.
    pub fn plus(self, more: Weight) -> Weight
        requires { self.places + more.places < 2 ^ 64 }
        ensures { result.places ≡ self.places + more.places }
    {
        Weight {
            places: self.places + more.places,
        }
    }

    // The weight as a number.
    pub fn value(self) -> u64
        ensures { result ≡ self.places }
    {
        self.places
    }
}

// The n places from t on become they + A B modulo p, cut to n places, where A and B are the n places from a and from b on.
pub fn multiply_add(p: u32, n: usize, w: &mut [u32], a: usize, b: usize, t: usize) -> Weight
    requires { Operands p n a b t w.old }
    ensures { MultipliedAdd p n a b t w.old w.new result.places }
{
    single_product::add_product(p, n, w, a, b, t);
    Weight { places: n as u64 }
}

// The n places from t on become A B modulo p, cut to n places, where A and B are the n places from a and from b on.
pub fn multiply(p: u32, n: usize, w: &mut [u32], a: usize, b: usize, t: usize) -> Weight
    requires { Operands p n a b t w.old }
    ensures { Multiplied p n a b t w.old w.new result.places }
{
    buffer::clear_part(w, t, n);
    multiply_add(p, n, w, a, b, t)
}

// The places of the rows at t, r in each.
fn places_of(r: usize, t: Rows) -> Weight
    requires { r * t.count < 2 ^ 64 }
    ensures { result.places ≡ r * t.count }
{
    let places = r * t.count;
    Weight {
        places: places as u64,
    }
}

// The rows at t become the first rows of a(x, y) a(-x, y) modulo p and below x^r, where a stands in rows of r places. Its odd powers of x vanish, and only
// the even ones are computed.
pub fn multiply_opposite(p: u32, r: usize, w: &mut [u32], a: Rows, t: Rows) -> Weight
    requires { OppositeRoom p r a.at a.count t.at t.count w.old × (a.count * ceil_div r 2 ≤ 4096) }
    ensures { MultipliedOpposite p r a t w.old w.new result.places }
{
    opposite_product::opposite(p, r, w, a.at, a.count, t.at, t.count);
    places_of(r, t)
}

// The rows at t become rows low, low + 1 and on of A B modulo p and below x^r, where A and B stand in rows of r places at a and at b, and A has no
// odd power of x.
pub fn multiply_spread(
    p: u32,
    r: usize,
    w: &mut [u32],
    a: Rows,
    b: Rows,
    low: usize,
    t: Rows,
) -> Weight
    requires { SpreadRoom p r a.at a.count b.at b.count low t.at t.count w.old × (b.count * ceil_div r 2 ≤ 4096) }
    ensures { MultipliedRows p r a b low t w.old w.new result.places }
{
    spread_product::spread(p, r, w, a.at, a.count, b.at, b.count, low, t.at, t.count);
    places_of(r, t)
}
