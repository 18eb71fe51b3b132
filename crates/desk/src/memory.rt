// The program's memory: a job read into fixed arrays, its features counted, and each haplotype answered.
ghost use Rattle.std.specs.Prelude.{◌≡◌, ◌≤◌, length};
ghost use Rattle.metrics.specs.Refusals.{refusal_number, told};
ghost use Rattle.form.specs.Job.{read_job, numbers_of};
ghost use Rattle.desk.specs.Desk.{read_text};
ghost use Rattle.desk.specs.Memory.{limit_fault, held_text, told_as, reading_text, lists_held, numbers_held, Fits, Loaded, Printed, most_of_all};

use crate::blocks::put_haplotypes;
use crate::features::count_rows;
use crate::room::{letter_room, part_table, variant_table};
use crate::stretches::over_parts;
use form::records::Counts;
use metrics::kmer::entries;
use metrics::refusals::Refusal;
use params::{Parts, Settings, Table};
use reader::numbers::read_numbers;
use reader::read_job;
use text::put_refused;

// The lists of a job: variant by variant, part by part, where each haplotype but the first begins, and the letters of all.
#[derive(Clone, Copy)]
pub(crate) struct Lists<'a> {
    pub(crate) starts: &'a [u64],
    pub(crate) ends: &'a [u64],
    pub(crate) sizes: &'a [i32],
    pub(crate) negatives: &'a [bool],
    pub(crate) counts: &'a [u32],
    pub(crate) numbers: &'a [u32],
    pub(crate) part_sizes: &'a [i32],
    pub(crate) part_negatives: &'a [bool],
    pub(crate) part_counts: &'a [u32],
    pub(crate) breaks: &'a [u64],
    pub(crate) letters: &'a [u8],
}

// The program's own limits, `long` where a haplotype has too many parts. k 0 has no features to count: 1 is the first row of the table of refusals.
#[tactic(auto, unfolding(crate::specs::Memory::limit_fault))]
fn limit_fault(s: Settings, long: bool) -> Result<(), Refusal>
    ensures { told result ≡ limit_fault long s }
{
    if long || s.k > 4 || s.maxpaths > 63 {
        return Err(Refusal::TooLarge);
    }
    if s.k < 1 {
        return Err(Refusal::BadK);
    }
    Ok(())
}

// Counts the features of all sequences of a job within the limits, and answers its haplotypes.
fn answer_held(s: Settings, lists: &Lists, out: &mut [u8]) -> usize
    requires { Fits s.letters (lists_held lists.now) }
    ensures { Printed most_of_all out.old 0 (held_text s lists.now.numbers.now (lists_held lists.now)) out.new result }
{
    let long = over_parts(lists.breaks, lists.part_sizes.len());
    if let Err(refusal) = limit_fault(s, long) {
        return put_refused(out, 0, refusal.into());
    }
    let width = entries(s.k);
    let mut features = variant_table();
    let mut part_features = part_table();
    let next = count_rows(
        s.letters,
        s.k,
        width,
        lists.negatives,
        lists.counts,
        lists.letters,
        0,
        &mut features,
    );
    count_rows(
        s.letters,
        s.k,
        width,
        lists.part_negatives,
        lists.part_counts,
        lists.letters,
        next,
        &mut part_features,
    );
    let v = lists.counts.len() * width;
    let m = lists.part_counts.len() * width;
    let table = Table {
        starts: lists.starts,
        ends: lists.ends,
        sizes: lists.sizes,
        features: &features[..v],
    };
    let parts = Parts {
        sizes: lists.part_sizes,
        features: &part_features[..m],
    };
    put_haplotypes(s, &table, lists.numbers, &parts, lists.breaks, width, out)
}

// What is printed for a refusal of the reader: too little room is too large a job.
fn told_as(refusal: Refusal) -> Refusal
    ensures { refusal_number result ≡ told_as (refusal_number refusal) }
{
    match refusal {
        Refusal::LittleRoom => Refusal::TooLarge,
        other => other,
    }
}

// What the reader said, and the arrays that it filled: the job stands at their fronts.
fn answer_reading(read: Result<(Settings, Counts), Refusal>, lists: &Lists, out: &mut [u8]) -> usize
    requires { Loaded read lists.now.numbers.now (lists_held lists.now) }
    ensures { Printed most_of_all out.old 0 (reading_text read lists.now.numbers.now (lists_held lists.now)) out.new result }
{
    match read {
        Err(refusal) => put_refused(out, 0, told_as(refusal).into()),
        Ok((s, c)) => {
            let own = Lists {
                starts: &lists.starts[..c.variants],
                ends: &lists.ends[..c.variants],
                sizes: &lists.sizes[..c.variants],
                negatives: &lists.negatives[..c.variants],
                counts: &lists.counts[..c.variants],
                numbers: &lists.numbers[..c.variants],
                part_sizes: &lists.part_sizes[..c.parts],
                part_negatives: &lists.part_negatives[..c.parts],
                part_counts: &lists.part_counts[..c.parts],
                breaks: &lists.breaks[..c.breaks],
                letters: lists.letters,
            };
            answer_held(s, &own, out)
        }
    }
}

// The record numbers of a job. If it was read into the program's arrays there is room for them too: they are as many as its variants.
fn record_numbers(input: &[u8]) -> [u32; 16]
    ensures { result ≡ numbers_held input.now }
{
    let mut numbers = [0u32; 16];
    let _ = read_numbers(input, &mut numbers);
    numbers
}

// Reads a job and its record numbers, and answers it.
pub(crate) fn answer_read(input: &[u8], out: &mut [u8]) -> usize
    requires { length input.now ≤ 32768 }
    ensures { Printed most_of_all out.old 0 (read_text (numbers_of input.now) (read_job input.now)) out.new result }
{
    let mut starts = [0u64; 16];
    let mut ends = [0u64; 16];
    let mut sizes = [0i32; 16];
    let mut negatives = [false; 16];
    let mut counts = [0u32; 16];
    let mut part_sizes = [0i32; 128];
    let mut part_negatives = [false; 128];
    let mut part_counts = [0u32; 128];
    let mut breaks = [0u64; 15];
    let mut letters = letter_room();
    let read = read_job(
        input,
        &mut starts,
        &mut ends,
        &mut sizes,
        &mut negatives,
        &mut counts,
        &mut part_sizes,
        &mut part_negatives,
        &mut part_counts,
        &mut breaks,
        &mut letters,
    );
    let numbers = record_numbers(input);
    let lists = Lists {
        starts: &starts,
        ends: &ends,
        sizes: &sizes,
        negatives: &negatives,
        counts: &counts,
        numbers: &numbers,
        part_sizes: &part_sizes,
        part_negatives: &part_negatives,
        part_counts: &part_counts,
        breaks: &breaks,
        letters: &letters,
    };
    answer_reading(read, &lists, out)
}
