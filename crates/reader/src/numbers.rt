// The record numbers of a job, by themselves.
ghost use Rattle.std.specs.Prelude.{◌≡◌, ◌≤◌, ◌<◌, ◌^◌, length, set};
ghost use Rattle.form.specs.Job.{variant_here, number_here, gather, row_numbers, numbers_by};
ghost use Rattle.reader.specs.Steps.{stores, Stored};
ghost use Rattle.reader.specs.Promises.{ReadNumbersPromise};

use crate::fill::store;
use fields::u32_at;
use form::records::{Edition, Kind, NUMBER_PLACE, VARIANT2_BODY, edition_of, record_at};
use form::scan;
use metrics::refusals::Refusal;

// a record number is of 32 bits
pub const MOST_NUMBERS: usize = 4294967296;

// The row numbers of n variants.
fn number_rows(n: usize, numbers: &mut [u32])
    requires { n ≤ 2 ^ 32 }
    ensures { numbers.new ≡ stores set numbers.old 0 (row_numbers n) }
{
    for i in 0..n {
        store(numbers, i, i as u32);
    }
}

// The number that one record has, stored in row v. Returns the next row. Only edition 2's variant has one.
#[tactic(auto, unfolding(form::specs::Job::number_here, form::specs::Form::body_len, crate::specs::Steps::stores))]
fn fill_number(kind: Kind, b: &[u8], v: usize, numbers: &mut [u32]) -> usize
    requires { v < 2 ^ 63 }
    ensures { Stored set numbers.old numbers.new v result (number_here kind b.now) }
{
    if !matches!(kind, Kind::Variant2) || b.len() < VARIANT2_BODY {
        return v;
    }
    store(numbers, v, u32_at(b, NUMBER_PLACE));
    v + 1
}

// The record numbers that a form of edition 2 has, in one walk over the records.
fn fill_numbers(s: &[u8], numbers: &mut [u32])
    ensures { numbers.new ≡ stores set numbers.old 0 (gather number_here s.now 0) }
{
    let mut at = 0usize;
    let mut v = 0usize;
    while at < s.len() {
        let here = record_at(s, at);
        let kind = here.kind;
        let b = &s[at + 1..];
        v = fill_number(kind, b, v, numbers);
        at = here.next;
    }
}

// The numbers of a form of n variants, at the front of the slice.
#[tactic(auto, unfolding(form::specs::Job::numbers_by))]
fn number(edition: Edition, s: &[u8], n: usize, numbers: &mut [u32])
    requires { (n ≡ length (gather variant_here s.now 0)) × (n ≤ 2 ^ 32) }
    ensures { numbers.new ≡ stores set numbers.old 0 (numbers_by edition s.now) }
{
    match edition {
        Edition::One => number_rows(n, numbers),
        Edition::Two => fill_numbers(s, numbers),
    }
}

// The first fault, 30 where the slice is too small, or how many variants the job has; then their record numbers, in edition 1 the row numbers,
// stand at the front of the slice. A refusal changes nothing.
pub fn read_numbers(bytes: &[u8], numbers: &mut [u32]) -> Result<usize, Refusal>
    ensures { ReadNumbersPromise bytes.now numbers.old numbers.new result }
{
    let counts = scan(bytes)?;
    if numbers.len() < counts.variants {
        return Err(Refusal::LittleRoom);
    }
    if MOST_NUMBERS < counts.variants {
        return Err(Refusal::LittleRoom);
    }
    number(edition_of(bytes), bytes, counts.variants, numbers);
    Ok(counts.variants)
}
