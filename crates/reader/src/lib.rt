// Reads a job: a first pass that changes nothing, and a second that fills lent slices.
#![tactic(auto)]

pub mod fill;
pub mod numbers;

ghost use Rattle.std.specs.Prelude.{◌≡◌};
ghost use Rattle.reader.specs.Reading.{five, three};
ghost use Rattle.reader.specs.Promises.{ReadJobPromise};

use crate::fill::fill;
use form::records::{Counts, edition_of};
use form::scan;
use form::settings::settings_by;
use metrics::refusals::Refusal;
use params::Settings;

#[tactic(auto, unfolding(crate::specs::Reading::five))]
fn rows_fit(n: usize, a: usize, b: usize, c: usize, d: usize, e: usize) -> bool
    ensures { result ≡ five n a b c d e }
{
    n <= a && n <= b && n <= c && n <= d && n <= e
}

#[tactic(auto, unfolding(crate::specs::Reading::three))]
fn parts_fit(n: usize, a: usize, b: usize, c: usize) -> bool
    ensures { result ≡ three n a b c }
{
    n <= a && n <= b && n <= c
}

// The first fault, 30 where a slice is too small, or the settings and the counts; then the job stands at the fronts of the slices,
// the parts of one haplotype behind those of the other, for each haplotype but the first how many parts stand before it, and the letters
// one sequence behind the other, the variants' and then the parts'. A refusal changes nothing.
pub fn read_job(
    bytes: &[u8],
    starts: &mut [u64],
    ends: &mut [u64],
    sizes: &mut [i32],
    negatives: &mut [bool],
    letter_counts: &mut [u32],
    part_sizes: &mut [i32],
    part_negatives: &mut [bool],
    part_letter_counts: &mut [u32],
    breaks: &mut [u64],
    letters: &mut [u8],
) -> Result<(Settings, Counts), Refusal>
    ensures { ReadJobPromise bytes.now starts.old ends.old sizes.old negatives.old
        letter_counts.old part_sizes.old part_negatives.old part_letter_counts.old breaks.old letters.old
        starts.new ends.new sizes.new negatives.new letter_counts.new part_sizes.new
        part_negatives.new part_letter_counts.new breaks.new letters.new result }
{
    let counts = scan(bytes)?;
    if !rows_fit(
        counts.variants,
        starts.len(),
        ends.len(),
        sizes.len(),
        negatives.len(),
        letter_counts.len(),
    ) {
        return Err(Refusal::LittleRoom);
    }
    if !parts_fit(
        counts.parts,
        part_sizes.len(),
        part_negatives.len(),
        part_letter_counts.len(),
    ) {
        return Err(Refusal::LittleRoom);
    }
    if breaks.len() < counts.breaks {
        return Err(Refusal::LittleRoom);
    }
    if letters.len() < counts.letters {
        return Err(Refusal::LittleRoom);
    }
    let settings = settings_by(edition_of(bytes), &bytes[1..]);
    fill(
        bytes,
        starts,
        ends,
        sizes,
        negatives,
        letter_counts,
        part_sizes,
        part_negatives,
        part_letter_counts,
        breaks,
        letters,
    );
    Ok((settings, counts))
}
