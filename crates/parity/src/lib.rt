// A list by parity: every second place, the sums of neighbours, and a list woven from three of half the length.
#![tactic(auto)]

ghost use Rattle.std.specs.Prelude.{◌≡◌, ◌+◌, ◌-◌, ◌*◌, ◌/◌, ◌%◌, ◌<◌, ◌≤◌, length, take};
ghost use Rattle.std.proofs.lemmas.List.Edits.{sets};
ghost use Rattle.definition.specs.KinoshitaLi.{negative};
ghost use Rattle.definition.specs.Lists.{tabulate};
ghost use Rattle.parity.specs.Halves.{Residues, neighbour_sum, part, second};
ghost use Rattle.parity.specs.Weave.{Woven, woven};

// m - e - o modulo p.
pub fn cross(p: u32, m: u32, e: u32, o: u32) -> u32
    requires { (m < p) × (e < p) × (o < p) }
    ensures { result ≡ ((m + negative p e) % p + negative p o) % p }
{
    residue::difference(p, residue::difference(p, m, e), o)
}

// The first `count` places of u become the places `from`, `from` + 2 and so on of the first n of x.
fn every_second(n: usize, from: usize, count: usize, x: &[u32], u: &mut [u32])
    requires { (from + 2 * count ≤ n + 1) × (n ≤ length x.now) × (count ≤ length u.old) }
    ensures { u.new ≡ sets u.old 0 (tabulate count (second from (take n x.now))) }
{
    let mut i = 0;
    while i < count {
        u[i] = x[2 * i + from];
        i += 1;
    }
}

// The first `count` places of u become the sums of neighbours among the first n of x.
fn pair_sums(p: u32, n: usize, count: usize, x: &[u32], u: &mut [u32])
    requires { (2 * count ≤ n) × (n ≤ length x.now) × (count ≤ length u.old) × Residues p n x.now }
    ensures { u.new ≡ sets u.old 0 (tabulate count (neighbour_sum p (take n x.now))) }
{
    let mut i = 0;
    while i < count {
        u[i] = residue::sum(p, x[2 * i], x[2 * i + 1]);
        i += 1;
    }
}

// The n places of z from `at` on become the product: the lists hold those of its parts, the even one from a on, the odd one from b on and that of the sums
// from c on. Two places a turn, and no jump on what is read.
pub fn weave(
    p: u32,
    n: usize,
    even: &[u32],
    a: usize,
    odd: &[u32],
    b: usize,
    sums: &[u32],
    c: usize,
    z: &mut [u32],
    at: usize,
)
    requires { Woven p n even.now a odd.now b sums.now c z.old at }
    ensures { z.new ≡ sets z.old at (tabulate n (woven p even.now a odd.now b sums.now c)) }
{
    let half = n / 2;
    let mut before = 0;
    let mut i = 0;
    while i < half {
        let e = even[a + i];
        let o = odd[b + i];
        let m = sums[c + i];
        let first = residue::sum(p, e, before);
        let second = cross(p, m, e, o);
        z[at + 2 * i] = first;
        z[at + 2 * i + 1] = second;
        before = o;
        i += 1;
    }
    if 2 * half < n {
        z[at + 2 * half] = residue::sum(p, even[a + half], before);
    }
}

// The first `count` places of u become a part of the first n of x: the even places (0), the odd places (1), or the sums of neighbours (2).
pub fn part(p: u32, n: usize, which: usize, count: usize, x: &[u32], u: &mut [u32])
    requires { (2 * count ≤ n + (1 - which)) × (n ≤ length x.now) × (count ≤ length u.old) × Residues p n x.now }
    ensures { u.new ≡ sets u.old 0 (part p n which count x.now) }
{
    if which < 2 {
        every_second(n, which, count, x, u);
    } else {
        pair_sums(p, n, count, x, u);
    }
}
