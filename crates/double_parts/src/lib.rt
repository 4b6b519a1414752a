// The even and the odd powers of x of polynomials in rows of a lent buffer, as parts, and rows of a product of two of them.
#![tactic(auto)]

ghost use Rattle.std.specs.Prelude.{◌≡◌};
ghost use Rattle.double_parts.specs.Rows.{every_second, results_of};

use double_parity::Results;
use grids::Grid;

// Every second place of the rows of r places: n places of each, the first at `at`.
pub fn every_second(r: usize, n: usize, at: usize, rows: usize) -> Grid
    ensures { result ≡ every_second r n at rows }
{
    Grid {
        at,
        outer: r,
        inner: 2,
        count: rows,
        length: n,
    }
}

// The rows of a product from row `low` on, `count` of them, with m places of each.
pub fn results(turned: bool, low: usize, count: usize, m: usize) -> Results
    ensures { result ≡ results_of turned low count m }
{
    Results {
        turned,
        low,
        rows: count,
        places: m,
    }
}
