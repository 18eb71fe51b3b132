// Reads the stored list from standard input (oracle/crates/judge/src/bin/make-lists.rs, `Stored`). What is read is not known to be
// anything, so every length is held to its slice.
use fields::{i32_of, u32_at, u64_at};
use metrics::kmer::{entries, seq_to_kmer};
use params::Settings;
use reader::read_job;
use std::io::Read;
use streams::read_full;

// The next number of the list; 0 behind its end.
pub(crate) fn word<R: Read>(input: &mut R) -> u32 {
    let mut bytes = [0u8; 4];
    read_full(input, &mut bytes);
    u32_at(&bytes, 0)
}

fn long<R: Read>(input: &mut R) -> u64 {
    let mut bytes = [0u8; 8];
    read_full(input, &mut bytes);
    u64_at(&bytes, 0)
}

// The first n of a slice, or all where there are fewer.
pub(crate) fn front<T>(xs: &[T], n: u32) -> &[T] {
    &xs[..(n as usize).min(xs.len())]
}

pub(crate) fn front_mut<T>(xs: &mut [T], n: u32) -> &mut [T] {
    let end = (n as usize).min(xs.len());
    &mut xs[..end]
}

pub(crate) fn read_u64s<R: Read>(input: &mut R, into: &mut [u64], count: u32) {
    for x in front_mut(into, count) {
        *x = long(input);
    }
}

pub(crate) fn read_i32s<R: Read>(input: &mut R, into: &mut [i32], count: u32) {
    for x in front_mut(into, count) {
        *x = i32_of(word(input));
    }
}

// Sequences, each counted into its row of the table where that is there.
pub(crate) fn read_rows<R: Read>(input: &mut R, k: u8, letters: &mut [u8], table: &mut [i32]) {
    let rows = word(input).min(66) as usize;
    let width = entries(k);
    for row in 0..rows {
        let negative = word(input) == 1;
        let letters = front_mut(letters, word(input));
        read_full(input, letters);
        if let Some(counts) = table.get_mut(row * width..(row + 1) * width) {
            let _ = seq_to_kmer(letters, k, negative, 0, counts);
        }
    }
}

fn change(table: &mut [i32], place: usize, value: i32) {
    if let Some(entry) = table.get_mut(place) {
        *entry = value;
    }
}

pub(crate) fn read_changes<R: Read>(
    input: &mut R,
    features: &mut [i32],
    part_features: &mut [i32],
) {
    let changes = word(input).min(66);
    for _ in 0..changes {
        let table = word(input);
        let place = word(input) as usize;
        let value = i32_of(word(input));
        if table == 0 {
            change(features, place, value);
        } else {
            change(part_features, place, value);
        }
    }
}

// Settings that are refused, by their k.
const NO_SETTINGS: Settings = Settings {
    k: 0,
    squish: false,
    one_to_one: false,
    full: false,
    maxpaths: 0,
    maxnodes: 0,
    fnmax: 0,
    pileupmax: 0,
    minkfreq: 0,
    letters: 0,
    sizesim: 0.0,
    seqsim: 0.0,
    fpenalty: 0.0,
    gpenalty: 0.0,
};

// The settings of a job that has nothing else. A list that holds another record there is answered with a k that is refused.
pub(crate) fn settings_of(head: &[u8]) -> Settings {
    let mut starts = [0u64; 1];
    let mut ends = [0u64; 1];
    let mut sizes = [0i32; 1];
    let mut negatives = [false; 1];
    let mut counts = [0u32; 1];
    let mut part_sizes = [0i32; 1];
    let mut part_negatives = [false; 1];
    let mut part_counts = [0u32; 1];
    let mut breaks = [0u64; 1];
    let mut letters = [0u8; 1];
    let read = read_job(
        head,
        &mut starts,
        &mut ends,
        &mut sizes,
        &mut negatives,
        &mut counts,
        &mut part_sizes,
        &mut part_negatives,
        &mut part_counts,
        &mut breaks,
        &mut letters,
    );
    match read {
        Ok((settings, _)) => settings,
        Err(_) => NO_SETTINGS,
    }
}
