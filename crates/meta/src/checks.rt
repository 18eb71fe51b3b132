// What making and combining are refused by, in the order of the numbers.
ghost use Rattle.std.specs.Prelude.{◌≡◌};
ghost use Rattle.metrics.specs.Refusals.{told};
ghost use Rattle.meta.specs.Meta.{count_fault, new_fault, combine_fault};

use crate::HaplotypeMeta;
use crate::arrays::sum_passes;
use metrics::refusals::Refusal;

#[tactic(auto, unfolding(crate::specs::Meta::count_fault))]
pub(crate) fn count_fault(samples: u64) -> Result<(), Refusal>
    ensures { told result ≡ count_fault samples }
{
    match samples {
        1..=8 => Ok(()),
        _ => Err(Refusal::BadSamples),
    }
}

#[tactic(auto, unfolding(crate::specs::Meta::count_fault, crate::specs::Meta::new_fault))]
pub(crate) fn new_fault(index: u64, samples: u64) -> Result<(), Refusal>
    ensures { told result ≡ new_fault index samples }
{
    count_fault(samples)?;
    if index >= samples {
        return Err(Refusal::NoSuchSample);
    }
    Ok(())
}

#[tactic(auto, unfolding(crate::specs::Meta::count_fault, crate::specs::Meta::combine_fault))]
pub(crate) fn combine_fault(left: HaplotypeMeta, right: HaplotypeMeta) -> Result<(), Refusal>
    ensures { told result ≡ combine_fault left right }
{
    count_fault(left.samples)?;
    count_fault(right.samples)?;
    if left.samples != right.samples {
        return Err(Refusal::UnequalSamples);
    }
    if sum_passes(left.samples as usize, &left.coverage, &right.coverage) {
        return Err(Refusal::CoverageOverflow);
    }
    Ok(())
}
