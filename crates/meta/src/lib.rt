// Whose reads these were (document 02, P12): the data of 1 to 8 samples that a haplotype carries, kanpig's `HaplotypeMeta` without its read names.
#![tactic(auto)]

mod arrays;
mod checks;
pub mod lists;
pub mod words;

ghost use Rattle.std.specs.Prelude.{◌≡◌};
ghost use Rattle.meta.specs.Meta.{blank_of, combine_fault, combined_of, combined_two, joined_result, not_made};
ghost use Rattle.meta.specs.Promises.{NewPromise, NewBlankPromise, CombinePromise, OrBlankPromise};

use crate::arrays::{joined_first, left_else_right};
use crate::checks::{combine_fault, count_fault, new_fault};
use metrics::refusals::Refusal;

// Entry i is sample i's; those at and behind `samples` are nobody's. A phase set and a haplotype tag are 0 where absent, else the value + 1.
#[derive(Clone, Copy)]
pub struct HaplotypeMeta {
    pub id: u64,
    pub samples: u64,
    pub samples_flag: u64,
    pub coverage: [u64; 8],
    pub ps: [u64; 8],
    pub hp: [u64; 8],
}

// Why nothing was made, and in its place a blank of one sample.
#[derive(Clone, Copy)]
pub struct NotMade {
    pub refusal: Refusal,
    pub meta: HaplotypeMeta,
}

impl From<Refusal> for NotMade {
    ghost from_gives = { λ refusal n. n ≡ not_made refusal };

    fn from(refusal: Refusal) -> NotMade {
        NotMade {
            refusal,
            meta: blank(1),
        }
    }
}

// Data that belongs to nobody.
pub(crate) fn blank(samples: u64) -> HaplotypeMeta
    ensures { result ≡ blank_of samples }
{
    HaplotypeMeta {
        id: 0,
        samples,
        samples_flag: 0,
        coverage: [0; 8],
        ps: [0; 8],
        hp: [0; 8],
    }
}

// One read of one sample; or the refusal and a blank of one sample.
pub fn new(sample_idx: u64, num_samples: u64) -> Result<HaplotypeMeta, NotMade>
    ensures { NewPromise sample_idx num_samples result }
{
    new_fault(sample_idx, num_samples)?;
    let mut coverage: [u64; 8] = [0; 8];
    coverage[sample_idx as usize] = 1;
    Ok(HaplotypeMeta {
        samples_flag: 1 << sample_idx,
        coverage,
        ..blank(num_samples)
    })
}

// No read of any sample; or the refusal and a blank of one sample.
pub fn new_blank(num_samples: u64) -> Result<HaplotypeMeta, NotMade>
    ensures { NewBlankPromise num_samples result }
{
    count_fault(num_samples)?;
    Ok(blank(num_samples))
}

// The two as one, where nothing refuses it.
pub(crate) fn both_as_one(left: HaplotypeMeta, right: HaplotypeMeta) -> HaplotypeMeta
    requires { combine_fault left right ≡ 0 }
    ensures { result ≡ combined_of left right }
{
    let n = left.samples as usize;
    let coverage = joined_first(n, left.coverage, right.coverage, |x, y| x + y);
    let ps = joined_first(n, left.ps, right.ps, left_else_right);
    let hp = joined_first(n, left.hp, right.hp, left_else_right);
    HaplotypeMeta {
        samples_flag: left.samples_flag | right.samples_flag,
        coverage,
        ps,
        hp,
        ..left
    }
}

// The same, or why it is refused.
pub(crate) fn joined(left: HaplotypeMeta, right: HaplotypeMeta) -> Result<HaplotypeMeta, Refusal>
    ensures { result ≡ joined_result (combined_two left right) }
{
    combine_fault(left, right)?;
    Ok(both_as_one(left, right))
}

// The two as one on the left, and the right as it was.
#[derive(Clone, Copy)]
pub struct Combined {
    pub left: HaplotypeMeta,
    pub right: HaplotypeMeta,
}

// Why the two were not combined, and both as they were.
#[derive(Clone, Copy)]
pub struct NotCombined {
    pub refusal: Refusal,
    pub left: HaplotypeMeta,
    pub right: HaplotypeMeta,
}

// Coverage is added, a tag of the left stays and else the right's is taken, the flags are joined, and the id is the left's.
pub fn combine(left: HaplotypeMeta, right: HaplotypeMeta) -> Result<Combined, NotCombined>
    ensures { CombinePromise left right result }
{
    match joined(left, right) {
        Ok(both) => Ok(Combined { left: both, right }),
        Err(refusal) => Err(NotCombined {
            refusal,
            left,
            right,
        }),
    }
}

// What was made, or a blank of one sample where it was refused.
pub fn or_blank(made: Result<HaplotypeMeta, Refusal>) -> HaplotypeMeta
    ensures { OrBlankPromise made result }
{
    made.unwrap_or(blank(1))
}
