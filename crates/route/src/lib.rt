// What the four routes share: lists put into the work buffer and added there, the answer taken out of it, and the contract of a route (specs).
#![tactic(auto)]

ghost use Rattle.std.specs.Prelude.{◌≡◌, ◌+◌, ◌<◌, ◌≤◌, length};
ghost use Rattle.std.proofs.lemmas.List.Edits.{sets};
ghost use Rattle.buffer.specs.Segments.{segment};
ghost use Rattle.definition.specs.Lists.{coefficient, tabulate};
ghost use Rattle.definition.specs.Refusal.{compose_work, limit};
ghost use Rattle.definition.specs.Substitution.{constant, cut_sum};
ghost use Rattle.route.specs.Contract.{Finished};

// The largest order, and the longest list that a call takes.
pub const LIMIT: usize = 4096;

// The places of work of a composition: so many for each power of x below the order, and so many for each coefficient of the outer list.
pub const WORK_PER_POWER: usize = 128;

pub const WORK_PER_COEFFICIENT: usize = 8;

// Coefficient k of a list: 0 past its end.
pub fn place(l: &[u32], k: usize) -> u32
    ensures { result ≡ coefficient l.now k }
{
    if k < l.len() { l[k] } else { 0 }
}

// Writes the first n places of a list, with zeros where it is shorter, from place t of w on.
pub fn put(l: &[u32], n: usize, w: &mut [u32], t: usize)
    requires { t + n ≤ length w.old }
    ensures { w.new ≡ sets w.old t (tabulate n (coefficient l.now)) }
{
    let mut k = 0;
    while k < n {
        w[t + k] = place(l, k);
        k += 1;
    }
}

// Writes the series c, c followed by zeros, into the n places of w from t on.
pub fn put_constant(c: u32, n: usize, w: &mut [u32], t: usize)
    requires { (0 < n) × (t + n ≤ length w.old) }
    ensures { w.new ≡ sets w.old t (tabulate n (constant c)) }
{
    buffer::clear_part(w, t, n);
    w[t] = c;
}

// The n places from t on become they + those from s on, modulo p; s is not below t.
pub fn add_part(p: u32, n: usize, w: &mut [u32], s: usize, t: usize)
    requires { (0 < p) × (t ≤ s) × (s + n ≤ length w.old) }
    ensures { w.new ≡ sets w.old t (cut_sum p n (segment w.old t n) (segment w.old s n)) }
{
    let mut k = 0;
    while k < n {
        w[t + k] = residue::reduced_sum(p, w[t + k], w[s + k]);
        k += 1;
    }
}

// Writes the first places of w into `out`, and clears the first k places of w.
pub fn finish(w: &mut [u32], out: &mut [u32], k: usize)
    requires { (length out.old ≤ length w.old) × (k ≤ length w.old) }
    ensures { Finished k w.old w.new out.old out.new }
{
    let end = out.len();
    buffer::copy(&w[..end], out);
    buffer::clear(w, k);
}

// The places of work that a composition is lent.
pub fn work_places(n: usize, m: usize) -> usize
    requires { (n ≤ limit) × (m ≤ limit) }
    ensures { result ≡ compose_work n m }
{
    WORK_PER_POWER * n + WORK_PER_COEFFICIENT * m
}
