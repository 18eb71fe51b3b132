// A list of data, combined from the front (document 02, P14): 28 words each, one behind the other.
ghost use Rattle.meta.specs.Promises.{CombineAllPromise};

use crate::checks::count_fault;
use crate::words::meta_of_slice;
use crate::{HaplotypeMeta, NotMade, joined};
use metrics::refusals::Refusal;

// The reads of a list as one, in their order; or the first refusal and a blank of one sample. However they were grouped before, it comes to the same.
pub fn combine_all(metas: &[u64]) -> Result<HaplotypeMeta, NotMade>
    ensures { CombineAllPromise metas.now result }
{
    if metas.len() % 28 != 0 {
        return Err(Refusal::BadLengths.into());
    }
    let n = metas.len() / 28;
    if n == 0 {
        return Err(Refusal::BadSamples.into());
    }
    let mut all = meta_of_slice(&metas[..28]);
    count_fault(all.samples)?;
    for i in 1..n {
        let at = 28 * i;
        all = joined(all, meta_of_slice(&metas[at..at + 28]))?;
    }
    Ok(all)
}
