// The job form: its records, the first fault, and the body of the settings.
#![tactic(auto)]

pub mod records;
pub mod settings;

ghost use Rattle.form.specs.Promises.{ScanPromise};

use crate::records::{Counts, first_fault};
use metrics::refusals::Refusal;

// The first fault, front to back, or how many variants, parts, haplotypes after the first and letters the job has.
pub fn scan(bytes: &[u8]) -> Result<Counts, Refusal>
    ensures { ScanPromise bytes.now result }
{
    first_fault(bytes)
}
