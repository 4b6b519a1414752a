// The product of parts of two lists, added to sums that are kept exact (`rows`), whatever the modulus.
#![tactic(auto)]

ghost use Rattle.std.specs.Prelude.{true, ◌≡◌, ℕ, ◌+◌, ◌≤◌, ◌<◌, get_or, length};
ghost use Rattle.rows.specs.Rows.{Factors, Passed};
ghost use Rattle.summed_product.specs.Terms.{Added, Pair, PassAt, product_of, rows_of};

// The `count` places of a list from `at` on.
#[derive(Clone, Copy)]
pub struct Part {
    pub at: usize,
    pub count: usize,
}

// Whether the eight places from i on are zero.
fn eight_zeros(x: &[u64], i: usize) -> bool
    requires { i + 8 ≤ length x.now }
    ensures { result ≡ true → (k : ℕ) → k < 8 → get_or x.now (i + k) 0 ≡ 0 }
{
    let mut k = 0;
    while k < 8 {
        if x[i + k] != 0 {
            return false;
        }
        k += 1;
    }
    true
}

// Adds eight rows, whatever the modulus.
fn add_pass(
    p: u32,
    from: usize,
    to: usize,
    x: &[u64],
    i: usize,
    y: &[u64],
    e: usize,
    sums: &mut [u64],
    high: &mut [u64],
)
    requires { Factors p 8 from to x.now i y.now e sums.old high.old }
    ensures { Passed 8 from to x.now i y.now e sums.old sums.new high.old high.new }
{
    if p <= 2147483648 {
        rows::add_eight_rows(from, to, x, i, y, e, sums, high);
    } else {
        rows::add_four_rows(from, to, x, i, y, e + 4, sums, high);
        rows::add_four_rows(from, to, x, i + 4, y, e, sums, high);
    }
}

// Adds rows i to i + 7 of the product of a and b at the n places from `low` on. Row i reaches the places from i on.
fn add_rows_at(
    p: u32,
    x: &[u64],
    a: Part,
    y: &[u64],
    b: Part,
    low: usize,
    n: usize,
    i: usize,
    sums: &mut [u64],
    high: &mut [u64],
)
    requires { PassAt p x.now a y.now b low n i sums.old high.old }
    ensures { Added n 8 sums.old sums.new high.old high.new (rows_of x.now a y.now b low i) }
{
    if eight_zeros(x, a.at + i) {
        return;
    }
    let from = number::excess(i, low);
    let to = number::smaller(n, i + 7 + b.count - low);
    let e = b.at + (low + from) - (i + 7);
    add_pass(p, from, to, x, a.at + i, y, e, sums, high);
}

// Adds the n places from `low` on of the product of a, a part of x, and b, a part of y, to the first n sums. Eight zeros stand before and behind each part.
pub fn add_product(
    p: u32,
    x: &[u64],
    a: Part,
    y: &[u64],
    b: Part,
    low: usize,
    n: usize,
    sums: &mut [u64],
    high: &mut [u64],
)
    requires { Pair p x.now a y.now b low n sums.old high.old }
    ensures { Added n (a.count + 8) sums.old sums.new high.old high.new (product_of x.now a y.now b low) }
{
    let end = number::smaller(a.count, low + n);
    let mut i = number::excess(low + 1, b.count) / 8 * 8;
    while i < end {
        add_rows_at(p, x, a, y, b, low, n, i, sums, high);
        i += 8;
    }
}
