// Similarity of features and of sizes, and the overlap of intervals.
#![tactic(auto)]

ghost use Rattle.std.specs.Prelude.{◌≡◌, ◌≤◌};
ghost use Rattle.metrics.specs.Similarity.{lies_inside, ratio_of, seqsim_value};
ghost use Rattle.metrics.specs.Promises.{SimilarityPromise, SeqsimPromise, SizesimPromise, OverlapsPromise};

use crate::refusals::Refusal;

pub mod floats;
pub mod kmer;
pub mod lanes;
pub mod refusals;

// Rounded after the division and after the subtraction.
#[tactic(auto, using(crate::proofs::Casts::zero_is, crate::proofs::Casts::one_is))]
fn rounded_similarity(d: u32, n: u32) -> f32
    requires { (d ≤ 16777216) × (n ≤ 16777216) }
    ensures { result ≡ seqsim_value d n }
{
    if d == 0 {
        return 0.0;
    }
    if n == 0 {
        return 1.0;
    }
    1.0 - (n as f32) / (d as f32)
}

// seqsim by its sums d and n, which are 16,777,216 at most for two rows within their limit; a larger one is taken for that.
pub fn similarity(d: u32, n: u32) -> f32
    ensures { SimilarityPromise d n result }
{
    rounded_similarity(d.min(16777216), n.min(16777216))
}

pub fn seqsim(a: &[i32], b: &[i32], minkfreq: u32) -> Result<f32, Refusal>
    ensures { SeqsimPromise a.now b.now minkfreq result }
{
    if minkfreq > 16777216 {
        return Err(Refusal::BadNumber);
    }
    if a.len() != b.len() {
        return Err(Refusal::BadLengths);
    }
    let s = lanes::sum_rows(a, b, minkfreq);
    if lanes::surely_within(s, a.len(), minkfreq) {
        return Ok(rounded_similarity(s.d, s.n));
    }
    if lanes::row_over(a, 8388608) || lanes::row_over(b, 8388608) {
        return Err(Refusal::BadRow);
    }
    Ok(rounded_similarity(s.d, s.n))
}

// The quotient of two whole numbers, each raised to at least 1.
fn ratio(lo: u64, hi: u64) -> f32
    requires { (lo ≤ 8388608) × (hi ≤ 8388608) }
    ensures { result ≡ ratio_of lo hi }
{
    (lo.max(1) as f32) / (hi.max(1) as f32)
}

#[tactic(auto, unfolding(crate::specs::Similarity::sizesim_of))]
pub fn sizesim(a: u64, b: u64) -> Result<f32, Refusal>
    ensures { SizesimPromise a b result }
{
    let hi = a.max(b);
    if hi > 8388608 {
        return Err(Refusal::BadSize);
    }
    if a == b {
        return Ok(1.0);
    }
    let lo = a.min(b);
    Ok(ratio(lo, hi))
}

// Whether the first interval is zero-length and lies inside the other.
fn lies_inside(s: u64, e: u64, start: u64, end: u64) -> bool
    ensures { result ≡ lies_inside s e start end }
{
    s == e && (start < s && s < end)
}

#[tactic(auto, unfolding(crate::specs::Similarity::overlaps_of))]
pub fn overlaps(s1: u64, e1: u64, s2: u64, e2: u64) -> bool
    ensures { OverlapsPromise s1 e1 s2 e2 result }
{
    s1.max(s2) < e1.min(e2) || lies_inside(s1, e1, s2, e2) || lies_inside(s2, e2, s1, e1)
}
