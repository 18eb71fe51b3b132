// Answers a stored list of library calls. Its file 'stdout' is what kanpig's Rust said of them (oracle/README.md).
#![tactic(auto)]

mod list;
mod print;

use crate::list::{
    front, front_mut, read_changes, read_i32s, read_rows, read_u64s, settings_of, word,
};
use crate::print::print_answer;
use kplib::traverse::apply_haplotype;
use params::{Parts, Settings, Table};
use std::io;
use std::io::Read;
use streams::read_full;

// The call with the lengths that the list gives, the last three of them of the rooms, and its answer printed.
fn ask(
    rt: &impl Print,
    settings: Settings,
    lengths: &[u32; 9],
    starts: &[u64],
    ends: &[u64],
    sizes: &[i32],
    features: &[i32],
    part_sizes: &[i32],
    part_features: &[i32],
) -> io::Result<()> {
    let mut links = [0u32; 262145];
    let mut keys = [0u64; 262145];
    let mut rows = [0u32; 80];
    let table = Table {
        starts: front(starts, lengths[0]),
        ends: front(ends, lengths[1]),
        sizes: front(sizes, lengths[2]),
        features: front(features, lengths[3]),
    };
    let parts = Parts {
        sizes: front(part_sizes, lengths[4]),
        features: front(part_features, lengths[5]),
    };
    let answer = apply_haplotype(
        settings,
        &table,
        &parts,
        front_mut(&mut links, lengths[6]),
        front_mut(&mut keys, lengths[7]),
        front_mut(&mut rows, lengths[8]),
    );
    print_answer(rt, answer, &rows)
}

// Reads one call, asks it and prints the answer. False where the list ends.
fn answer_next<R: Read>(rt: &impl Print, input: &mut R) -> io::Result<bool> {
    let mut head = [0u8; 42];
    if read_full(input, &mut head) < head.len() {
        return Ok(false);
    }
    let settings = settings_of(&head);
    let mut lengths = [0u32; 9];
    for length in &mut lengths {
        *length = word(input);
    }
    let mut starts = [0u64; 66];
    read_u64s(input, &mut starts, lengths[0]);
    let mut ends = [0u64; 66];
    read_u64s(input, &mut ends, lengths[1]);
    let mut sizes = [0i32; 66];
    read_i32s(input, &mut sizes, lengths[2]);
    let mut part_sizes = [0i32; 66];
    read_i32s(input, &mut part_sizes, lengths[4]);
    let mut letters = [0u8; 4096];
    let mut features = [0i32; 262144];
    read_rows(input, settings.k, &mut letters, &mut features);
    let mut part_features = [0i32; 262144];
    read_rows(input, settings.k, &mut letters, &mut part_features);
    read_changes(input, &mut features, &mut part_features);
    ask(
        rt,
        settings,
        &lengths,
        &starts,
        &ends,
        &sizes,
        &features,
        &part_sizes,
        &part_features,
    )?;
    Ok(true)
}

// A loop has to end, so it counts its turns, of which a list has fewer.
fn main(rt: HostRuntime) -> io::Result<()> {
    let mut input = rt.stdin();
    for _ in 0..10000 {
        if !answer_next(&rt, &mut input)? {
            break;
        }
    }
    Ok(())
}
