// Buffers of 32-bit numbers: clearing, copying, the test that every number is below a bound, the effective length, and the place of a running value.
#![tactic(auto)]

ghost use Rattle.std.specs.Prelude.{◌≡◌, ◌++◌, ◌+◌, ◌*◌, ◌^◌, ◌<◌, ◌≤◌, length, take, drop, replicate};
ghost use Rattle.std.proofs.lemmas.List.Edits.{sets};
ghost use Rattle.definition.specs.Answer.{cleared};
ghost use Rattle.definition.specs.Lists.{effective_length};
ghost use Rattle.definition.specs.Refusal.{exceeds};
ghost use Rattle.buffer.specs.Segments.{CopyOperands, segment};
ghost use Rattle.buffer.specs.Turns.{running_place};

// Sets the first `k` places to zero.
pub fn clear(w: &mut [u32], k: usize)
    requires { k ≤ length w.old }
    ensures { w.new ≡ cleared k w.old }
{
    let mut i = 0;
    while i < k {
        w[i] = 0;
        i += 1;
    }
}

// Sets the `n` places from `t` on to zero.
pub fn clear_part(w: &mut [u32], t: usize, n: usize)
    requires { t + n ≤ length w.old }
    ensures { w.new ≡ sets w.old t (replicate n 0) }
{
    let end = t + n;
    clear(&mut w[t..end], n);
}

// Writes `src` from place 0 of `dst`; later places stay.
pub fn copy(src: &[u32], dst: &mut [u32])
    requires { length src.now ≤ length dst.old }
    ensures { dst.new ≡ src.now ++ drop (length src.now) dst.old }
{
    let mut i = 0;
    while i < src.len() {
        dst[i] = src[i];
        i += 1;
    }
}

// Writes the `count` places from `from` on at place `to`. The two parts may overlap where `to` is not above `from`.
pub fn copy_part(w: &mut [u32], from: usize, to: usize, count: usize)
    requires { CopyOperands from to count w.old }
    ensures { w.new ≡ sets w.old to (take count (drop from w.old)) }
{
    let mut i = 0;
    while i < count {
        w[to + i] = w[from + i];
        i += 1;
    }
}

// Whether a number of `l` is `p` or more.
pub fn exceeds(l: &[u32], p: u32) -> bool
    ensures { result ≡ exceeds p l.now }
{
    let mut i = 0;
    while i < l.len() {
        if p <= l[i] {
            return true;
        }
        i += 1;
    }
    false
}

// The effective length (N5's term): the place of the last number that is not zero plus one, or 0.
pub fn effective_length(l: &[u32]) -> usize
    ensures { result ≡ effective_length l.now }
{
    let mut k = l.len();
    while 0 < k {
        if l[k - 1] != 0 {
            return k;
        }
        k -= 1;
    }
    0
}

// The effective length of the `n` places from `t` on.
pub fn effective_part(w: &[u32], t: usize, n: usize) -> usize
    requires { t + n ≤ length w.now }
    ensures { result ≡ effective_length (segment w.now t n) }
{
    let end = t + n;
    effective_length(&w[t..end])
}

// The place of a running value while i steps are left: t or t + n by turns, and t in the end.
pub fn running_place(n: usize, t: usize, i: usize) -> usize
    requires { t + 2 * n < 2 ^ 64 }
    ensures { result ≡ running_place n t i }
{
    t + i % 2 * n
}
