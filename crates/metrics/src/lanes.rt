// The sums of a row and of two, in a form that the compiler turns into vector instructions: no early exit, no sum wider than its entries.
// The sums wrap where a row is over its limit; such a row is refused anyway.
ghost use Rattle.std.specs.Prelude.{◌≡◌, ◌+◌, ◌*◌, ◌<◌, ◌≤◌, true, length, pos, ◌-ℤ◌, if◌then◌else◌, nat_le, nat_lt, unsigned_abs};
ghost use Rattle.metrics.specs.Lanes.{Added, Summed, RowSummed};
ghost use Rattle.metrics.specs.Similarity.{magnitude_sum};
ghost use Rattle.metrics.specs.Promises.{MagnitudePromise, RowOverPromise};

// The magnitude of any signed number, the least one too.
pub fn magnitude(x: i32) -> u32
    ensures { MagnitudePromise x result }
{
    x.unsigned_abs()
}

// How far two entries are apart, where neither is large: the magnitude of the wrapped difference takes fewer vector instructions than `abs_diff`.
fn apart(x: i32, y: i32) -> u32
    ensures { unsigned_abs x + unsigned_abs y < 2147483648 → result ≡ unsigned_abs (x -ℤ y) }
{
    magnitude(x.wrapping_sub(y))
}

// The same bits, read as a signed number: vectors of signed numbers are compared with one instruction less.
fn as_signed(t: u32) -> i32
    ensures { t < 2147483648 → result ≡ pos t }
{
    if t < 2147483648 {
        t as i32
    } else {
        ((t as i64) - 4294967296) as i32
    }
}

// v where t is at least minkfreq, else 0; where t is not large.
fn kept(t: u32, minkfreq: u32, v: u32) -> u32
    requires { minkfreq ≤ 16777216 }
    ensures { t < 2147483648 → result ≡ (if nat_le minkfreq t then v else 0) }
{
    if (minkfreq as i32) <= as_signed(t) {
        v
    } else {
        0
    }
}

// Document 01's d and n, and a number that no magnitude passes.
#[derive(Clone, Copy)]
pub(crate) struct Sums {
    pub(crate) d: u32,
    pub(crate) n: u32,
    pub(crate) most: u32,
}

// One more pair of entries, of magnitudes p and q and z apart.
fn add_pair(s: Sums, p: u32, q: u32, z: u32, minkfreq: u32) -> Sums
    requires { minkfreq ≤ 16777216 }
    ensures { Added minkfreq p q z s result }
{
    let both = p.wrapping_add(q);
    let d = s.d.wrapping_add(kept(both, minkfreq, both));
    let n = s.n.wrapping_add(kept(both, minkfreq, z));
    let most = s.most | p | q;
    Sums { d, n, most }
}

// d and n of two rows, right where the rows are within their limit.
pub(crate) fn sum_rows(a: &[i32], b: &[i32], minkfreq: u32) -> Sums
    requires { (length a.now ≡ length b.now) × (minkfreq ≤ 16777216) }
    ensures { Summed minkfreq a.now b.now result }
{
    let mut s = Sums {
        d: 0,
        n: 0,
        most: 0,
    };
    for (i, x) in a.iter().enumerate() {
        let y = b[i];
        s = add_pair(s, magnitude(*x), magnitude(y), apart(*x, y), minkfreq);
    }
    s
}

// Whether the sums alone show that both rows of so many entries are within their limit: then nothing wrapped, and what d leaves out is below
// minkfreq in each entry. Where they do not show it, `row_over` counts.
pub(crate) fn surely_within(s: Sums, count: usize, minkfreq: u32) -> bool
    requires { minkfreq ≤ 16777216 }
    ensures { result ≡ true → (count * s.most ≤ 536870912) × (s.d + count * minkfreq ≤ 8388608) }
{
    if s.most > 8388608 {
        return false;
    }
    if count > 8388608 {
        return false;
    }
    if (s.most as usize) * count > 536870912 {
        return false;
    }
    (s.d as usize) + (minkfreq as usize) * count <= 8388608
}

// Whether the magnitudes of a row sum to more than a limit. The sum stops there, so that it fits whatever the entries are.
fn count_over(a: &[i32], limit: u32) -> bool
    ensures { result ≡ nat_lt limit (magnitude_sum a.now) }
{
    let most = limit as u64;
    let mut sum: u64 = 0;
    for x in a {
        sum += magnitude(*x) as u64;
        if sum > most {
            return true;
        }
    }
    false
}

// The magnitudes of a row, summed, and a number that no magnitude passes.
#[derive(Clone, Copy)]
pub(crate) struct RowSum {
    sum: u32,
    most: u32,
}

// The sum wraps where a row is very large.
fn sum_row(a: &[i32]) -> RowSum
    ensures { RowSummed a.now result }
{
    let mut sum: u32 = 0;
    let mut most: u32 = 0;
    for x in a {
        let p = magnitude(*x);
        sum = sum.wrapping_add(p);
        most |= p;
    }
    RowSum { sum, most }
}

// Whether no sum of so many magnitudes wrapped.
fn surely_exact(s: RowSum, count: usize) -> bool
    ensures { result ≡ true → count * s.most < 4294967296 }
{
    if s.most > 8388608 {
        return false;
    }
    if count > 8388608 {
        return false;
    }
    (s.most as usize) * count < 4294967296
}

// Whether the magnitudes of a row sum to more than a limit: by the fast sum, where it shows that nothing wrapped.
pub fn row_over(a: &[i32], limit: u32) -> bool
    ensures { RowOverPromise a.now limit result }
{
    let s = sum_row(a);
    if surely_exact(s, a.len()) {
        return s.sum > limit;
    }
    count_over(a, limit)
}
