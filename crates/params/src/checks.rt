// The refusals of a call, of the search and of the chain count, in the order of document 01's table ("Numbers a job may hold"), before any work is done.
ghost use Rattle.std.specs.Prelude.{◌≡◌, ◌*◌, ◌≤◌, Bool, List, ℤ, length};
ghost use Rattle.metrics.specs.Refusals.{told};
ghost use Rattle.params.specs.Held.{table_held, parts_held};
ghost use Rattle.params.specs.Numbers.{first_of, start_after_end, falling_start, bad_size, bad_row, all_zero, empty_row, little_queue_room};
ghost use Rattle.params.specs.Numbers.{any_below, row_at, length_rules, bound_rules, limit_rules, room_rules};
ghost use Rattle.params.specs.CheckSteps.{Shaped, Tests};
ghost use Rattle.params.specs.Promises.{QueueRoomPromise, CallFaultPromise, PartsFaultPromise, CountFaultPromise};

use crate::graphparams::{search_mode, settings_fault};
use crate::{Parts, Settings, Table};
use metrics::kmer::entries;
use metrics::lanes::{magnitude, row_over};
use metrics::refusals::Refusal;

// 4 to 6. The features are asked last, when V and m are known to be at most 64.
fn length_fault(e: usize, table: &Table, parts: &Parts) -> Result<(), Refusal>
    requires { e ≤ 4096 }
    ensures { told result ≡ first_of (length_rules e (table_held table.now) (parts_held parts.now)) }
{
    let v = table.starts.len();
    let m = parts.sizes.len();
    if v == 0 {
        return Err(Refusal::NoVariants);
    }
    if v > 64 || m > 64 {
        return Err(Refusal::TooMany);
    }
    if table.ends.len() != v || table.sizes.len() != v || table.features.len() != v * e {
        return Err(Refusal::BadLengths);
    }
    if parts.features.len() != m * e {
        return Err(Refusal::BadLengths);
    }
    Ok(())
}

fn start_after_end(starts: &[u64], ends: &[u64]) -> bool
    requires { length ends.now ≡ length starts.now }
    ensures { result ≡ start_after_end starts.now ends.now }
{
    for (r, start) in starts.iter().enumerate() {
        if *start > ends[r] {
            return true;
        }
    }
    false
}

fn falling_start(starts: &[u64]) -> bool
    requires { 1 ≤ length starts.now }
    ensures { result ≡ falling_start starts.now }
{
    for r in 1..starts.len() {
        if starts[r] < starts[r - 1] {
            return true;
        }
    }
    false
}

// 7 and 8.
fn bound_fault(starts: &[u64], ends: &[u64]) -> Result<(), Refusal>
    requires { (1 ≤ length starts.now) × (length ends.now ≡ length starts.now) }
    ensures { told result ≡ first_of (bound_rules starts.now ends.now) }
{
    if start_after_end(starts, ends) {
        return Err(Refusal::StartAfterEnd);
    }
    if falling_start(starts) {
        return Err(Refusal::FallingStart);
    }
    Ok(())
}

fn bad_size(sizes: &[i32]) -> bool
    ensures { result ≡ bad_size sizes.now }
{
    sizes.iter().any(|size| magnitude(*size) > 131072)
}

// Whether the test passes one of n rows of e entries each.
fn any_row<F: Fn(&[i32]) -> bool>(features: &[i32], n: usize, e: usize, test: F) -> bool
    requires shaped { length features.now ≡ n * e }
    requires callable { F.IsAlwaysCallable test }
    ensures { (passes : List ℤ → Bool) → Tests F.Fn test passes
        → result ≡ any_below n (λ r. passes (row_at e features.now r)) }
{
    for r in 0..n {
        if test(&features[r * e..][..e]) {
            return true;
        }
    }
    false
}

#[tactic(auto, unfolding(crate::specs::Numbers::bad_row))]
fn bad_row(features: &[i32], n: usize, e: usize) -> bool
    requires { length features.now ≡ n * e }
    ensures { result ≡ bad_row e n features.now }
{
    any_row(features, n, e, |row| row_over(row, 131072))
}

// Left at the first entry that is not 0, so that rows which hold one cost little. A loop, which the compiler unrolls, where it leaves `all` as it is.
fn all_zero(row: &[i32]) -> bool
    ensures { result ≡ all_zero row.now }
{
    for entry in row {
        if *entry != 0 {
            return false;
        }
    }
    true
}

#[tactic(auto, unfolding(crate::specs::Numbers::empty_row))]
fn empty_row(features: &[i32], n: usize, e: usize) -> bool
    requires { length features.now ≡ n * e }
    ensures { result ≡ empty_row e n features.now }
{
    any_row(features, n, e, all_zero)
}

// 9, 10 and 16.
fn limit_fault(e: usize, table: &Table, parts: &Parts) -> Result<(), Refusal>
    requires { Shaped e (table_held table.now) (parts_held parts.now) }
    ensures { told result ≡ first_of (limit_rules e (table_held table.now) (parts_held parts.now)) }
{
    let v = table.starts.len();
    if bad_size(table.sizes) || bad_size(parts.sizes) {
        return Err(Refusal::BadSize);
    }
    if bad_row(table.features, v, e) || bad_row(parts.features, parts.sizes.len(), e) {
        return Err(Refusal::BadRow);
    }
    if empty_row(table.features, v, e) {
        return Err(Refusal::EmptyRow);
    }
    Ok(())
}

#[tactic(auto, unfolding(crate::specs::Numbers::little_queue_room))]
fn little_queue_room(s: Settings, v: usize, queue_room: usize) -> bool
    requires { (s.maxpaths ≤ 4095) × (v ≤ 64) }
    ensures { result ≡ little_queue_room s v queue_room }
{
    search_mode(s, v) && queue_room < 1 + (s.maxpaths as usize + 1) * v
}

// 11 and 12.
fn room_fault(s: Settings, v: usize, queue_room: usize, answer_room: usize) -> Result<(), Refusal>
    requires { (s.maxpaths ≤ 4095) × (v ≤ 64) }
    ensures { told result ≡ first_of (room_rules s v queue_room answer_room) }
{
    if little_queue_room(s, v, queue_room) {
        return Err(Refusal::QueueRoom);
    }
    if answer_room < v {
        return Err(Refusal::AnswerRoom);
    }
    Ok(())
}

// The queue holds as many entries as both of its slices have.
pub fn queue_room(links: usize, keys: usize) -> usize
    ensures { QueueRoomPromise links keys result }
{
    links.min(keys)
}

// The first refusal of a call.
#[tactic(auto, unfolding(crate::specs::Numbers::first_fault), using(metrics::proofs::Entries::never_more))]
pub fn call_fault(
    s: Settings,
    table: &Table,
    parts: &Parts,
    queue_room: usize,
    answer_room: usize,
) -> Result<(), Refusal>
    ensures { CallFaultPromise s table.now parts.now queue_room answer_room result }
{
    settings_fault(s)?;
    let e = entries(s.k);
    length_fault(e, table, parts)?;
    bound_fault(table.starts, table.ends)?;
    limit_fault(e, table, parts)?;
    room_fault(s, table.starts.len(), queue_room, answer_room)
}

// 5, 6, 9 and 10 of one haplotype's parts alone.
#[tactic(auto, using(metrics::proofs::Entries::never_more))]
pub fn parts_fault(k: u8, parts: &Parts) -> Result<(), Refusal>
    ensures { PartsFaultPromise k parts.now result }
{
    let e = entries(k);
    let m = parts.sizes.len();
    if m > 64 {
        return Err(Refusal::TooMany);
    }
    if parts.features.len() != m * e {
        return Err(Refusal::BadLengths);
    }
    if bad_size(parts.sizes) {
        return Err(Refusal::BadSize);
    }
    if bad_row(parts.features, m, e) {
        return Err(Refusal::BadRow);
    }
    Ok(())
}

// The first refusal of a chain count.
#[tactic(auto, unfolding(crate::specs::Numbers::chain_count_fault))]
pub fn count_fault(starts: &[u64], ends: &[u64], cap: u32) -> Result<(), Refusal>
    ensures { CountFaultPromise starts.now ends.now cap result }
{
    if cap > 4096 {
        return Err(Refusal::BadNumber);
    }
    if starts.is_empty() {
        return Err(Refusal::NoVariants);
    }
    if starts.len() > 64 {
        return Err(Refusal::TooMany);
    }
    if ends.len() != starts.len() {
        return Err(Refusal::BadLengths);
    }
    bound_fault(starts, ends)
}
