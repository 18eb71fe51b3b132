// Reads one job and writes it anew with the proved writer, in the edition that it was in; writes nothing where the job is refused. What ndigo makes is held to it.
#![tactic(auto)]

use form::records::{Counts, Edition, edition_of};
use metrics::refusals::Refusal;
use params::Settings;
use reader::numbers::read_numbers;
use reader::read_job;
use std::io;
use streams::read_full;
use writer::{write_job, write_numbered_job};

// The first n of a slice, or all where there are fewer.
fn front<T>(xs: &[T], n: usize) -> &[T] {
    &xs[..n.min(xs.len())]
}

// The job that was read into the slices, written in the edition that it was read in.
fn write_again(
    job: &[u8],
    settings: Settings,
    found: Counts,
    starts: &[u64],
    ends: &[u64],
    sizes: &[i32],
    negatives: &[bool],
    counts: &[u32],
    part_sizes: &[i32],
    part_negatives: &[bool],
    part_counts: &[u32],
    breaks: &[u64],
    letters: &[u8],
    out: &mut [u8],
) -> Result<usize, Refusal> {
    let mut room = [0u32; 16];
    // never refused, since the job was read: there is room for as many variants
    let Ok(v) = read_numbers(job, &mut room) else {
        return Ok(0);
    };
    let m = found.parts;
    match edition_of(job) {
        Edition::One => write_job(
            settings,
            front(starts, v),
            front(ends, v),
            front(sizes, v),
            front(negatives, v),
            front(counts, v),
            front(part_sizes, m),
            front(part_negatives, m),
            front(part_counts, m),
            front(breaks, found.breaks),
            front(letters, found.letters),
            out,
        ),
        Edition::Two => write_numbered_job(
            settings,
            front(&room, v),
            front(starts, v),
            front(ends, v),
            front(sizes, v),
            front(negatives, v),
            front(counts, v),
            front(part_sizes, m),
            front(part_negatives, m),
            front(part_counts, m),
            front(breaks, found.breaks),
            front(letters, found.letters),
            out,
        ),
    }
}

fn main(rt: HostRuntime) -> io::Result<()> {
    let mut bytes = [0u8; 32768];
    let got = read_full(&mut rt.stdin(), &mut bytes);
    let mut starts = [0u64; 16];
    let mut ends = [0u64; 16];
    let mut sizes = [0i32; 16];
    let mut negatives = [false; 16];
    let mut counts = [0u32; 16];
    let mut part_sizes = [0i32; 128];
    let mut part_negatives = [false; 128];
    let mut part_counts = [0u32; 128];
    let mut breaks = [0u64; 15];
    let mut letters = [0u8; 32768];
    let mut out = [0u8; 32768];
    let job = front(&bytes, got);
    let Ok((settings, found)) = read_job(
        job,
        &mut starts,
        &mut ends,
        &mut sizes,
        &mut negatives,
        &mut counts,
        &mut part_sizes,
        &mut part_negatives,
        &mut part_counts,
        &mut breaks,
        &mut letters,
    ) else {
        return Ok(());
    };
    let Ok(count) = write_again(
        job,
        settings,
        found,
        &starts,
        &ends,
        &sizes,
        &negatives,
        &counts,
        &part_sizes,
        &part_negatives,
        &part_counts,
        &breaks,
        &letters,
        &mut out,
    ) else {
        return Ok(());
    };
    rt.write_all(front(&out, count))
}
